//! Recordings, in the layout of `nixu_recording` in nixu.h.

/// The recording of a process, as bytes.
#[repr(C)]
#[derive(Clone, Copy)]
pub struct CRecording<'a> {
    pub text: &'a [u8],
}
