//! Determinants, in the layout of `nixu_determinant` in nixu.h.
ghost use Rattle.std.specs.Prelude.{◌≡◌, IfOk, map};
ghost use Rattle.nixu_boundary.specs.Determinants.{det_from_c, c_det_of, AreCopiedOut};

use causal_name::{Det, NoMemory, Pid};
use std::alloc::Global;

/// A determinant.
#[repr(C)]
#[derive(Clone, Copy)]
pub struct CDeterminant {
    /// The send sequence number.
    pub ssn: u32,
    /// The receive sequence number.
    pub rsn: u32,
    /// The message's sender.
    pub source: u8,
    /// The receiver.
    pub dest: u8,
}

/// Returns the determinant in a C struct.
pub fn det_from_c(determinant: CDeterminant) -> Det
    ensures { result ≡ det_from_c determinant }
{
    Det {
        source: Pid(determinant.source),
        ssn: determinant.ssn,
        dest: Pid(determinant.dest),
        rsn: determinant.rsn,
    }
}

/// Returns the C struct of a determinant.
pub fn c_det_of(det: Det) -> CDeterminant
    ensures { result ≡ c_det_of det }
{
    CDeterminant {
        ssn: det.ssn,
        rsn: det.rsn,
        source: det.source.0,
        dest: det.dest.0,
    }
}

/// Converts determinants.
///
/// # Errors
/// `NoMemory` if allocation failed.
pub fn dets_from_c(alloc: Global, determinants: &[CDeterminant]) -> Result<Vec<Det>, NoMemory>
    ensures { IfOk result (λ dets. dets.items ≡ map det_from_c determinants.now) }
{
    let dets = determinants
        .iter()
        .map(|determinant| det_from_c(*determinant));
    Ok(dets.collect(alloc)?)
}

/// Copies as many of the determinants as fit to the front of `out`, and sets `needed` to their number.
pub fn copy_dets(dets: &[Det], out: &mut [CDeterminant], needed: &mut usize)
    ensures { AreCopiedOut dets.now out.old out.new needed.new }
{
    let fitting = out.len().min(dets.len());
    for i in 0..fitting {
        out[i] = c_det_of(dets[i]);
    }
    *needed = dets.len();
}
