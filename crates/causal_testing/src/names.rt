//! Determinants and names of messages in short form.
use causal_name::{Det, MsgName, Pid};

/// Source, ssn, receiver and rsn.
pub type Fields = (u8, u32, u8, u32);

/// The determinant with these fields.
pub fn det((source, ssn, dest, rsn): Fields) -> Det {
    Det {
        source: Pid(source),
        ssn,
        dest: Pid(dest),
        rsn,
    }
}

pub fn name(source: u8, ssn: u32) -> MsgName {
    MsgName {
        source: Pid(source),
        ssn,
    }
}

/// Returns whether the determinants have these fields.
pub fn are(dets: &[Det], fields: &[Fields]) -> bool {
    for (told, wanted) in dets.iter().zip(fields) {
        if *told != det(*wanted) {
            return false;
        }
    }
    dets.len() == fields.len()
}
