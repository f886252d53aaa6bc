//! Entries of a trace, and lists of determinants.
ghost use Rattle.std.specs.Prelude.{◌≡◌, ◌∷◌, [], length};
ghost use Rattle.causal_name.specs.Names.{is_ascending};
ghost use Rattle.causal_trace.specs.Past.{is_det, line_at};

use crate::scans;
use causal_name::{Det, Pid};
use std::alloc::AllocError;
use std::marker::Model;
use std::{fmt, slice};

/// A list of determinants, in the order of the entry that lists them. A list of one allocates nothing.
#[derive(Drop)]
pub struct Dets {
    listed: DetsRepr,
}

#[derive(Clone, Drop)]
enum DetsRepr {
    One(Det),
    List(Vec<Det>),
}

impl Model for Dets {
    ghost use Rattle.std.specs.Prelude.{List};
    ghost use Rattle.causal_name.specs.declared.Det.{Det};

    ghost Value = { List Det };

    ghost use Rattle.causal_trace.specs.Inside.Lists.{dets_in_repr};

    ghost view = { λ a. dets_in_repr a.listed };
}

impl Clone for Dets {
    ghost is_clone = { λ a b. b ≡ a };

    fn clone(&self) -> Result<Dets, AllocError> {
        let listed = self.listed.clone()?;
        Ok(Dets { listed })
    }
}

impl PartialEq for Dets {
    ghost use lib.Pointwise.{pointwise};
    ghost use Rattle.causal_name.specs.Names.{same_det};
    ghost use Rattle.std.specs.Cmp.{partial_equiv_from_equiv};
    ghost use Rattle.std.specs.Cmp.Lexicographic.{lists_per};
    ghost use Rattle.causal_name.specs.SameDets.{same_det_equiv};

    ghost eq = { λ a b. pointwise same_det a b };

    ghost laws = { lists_per (partial_equiv_from_equiv same_det_equiv) };

    fn eq(&self, other: &Dets) -> bool {
        self.as_slice() == other.as_slice()
    }
}

impl fmt::Debug for Dets {
    fn fmt<W: fmt::Write>(&self, f: &mut fmt::Formatter<W>) -> fmt::Result {
        f.debug_list().entries(self.as_slice()).finish()
    }
}

impl Eq for Dets {
    ghost use Rattle.std.specs.Cmp.Lexicographic.{lists_equiv};
    ghost use Rattle.causal_name.specs.SameDets.{same_det_equiv};

    ghost laws = { lists_equiv same_det_equiv };
}

impl Dets {
    /// Returns the list that the vector contains.
    pub fn new(dets: Vec<Det>) -> Dets
        ensures { result ≡ dets.items }
    {
        let listed = DetsRepr::List(dets);
        Dets { listed }
    }

    /// Returns the list of one determinant. It allocates nothing.
    pub fn one(det: Det) -> Dets
        ensures { result ≡ det ∷ [] }
    {
        let listed = DetsRepr::One(det);
        Dets { listed }
    }

    /// Returns the determinants in order.
    pub fn as_slice(&self) -> &[Det]
        ensures { result.now ≡ self.now }
    {
        match &self.listed {
            DetsRepr::One(det) => slice::from_ref(det),
            DetsRepr::List(dets) => dets.as_slice(),
        }
    }

    /// Checks whether the list is strictly ascending, by source, ssn, dest and rsn. O(length) time.
    pub fn is_ascending(&self) -> bool
        ensures { result ≡ is_ascending self.now }
    {
        scans::is_ascending(self.as_slice())
    }
}

/// One step of a run. Positions of entries, and sequence numbers within a lane (incarnation), count from 0.
#[derive(Clone, Debug, Drop, PartialEq, Eq)]
pub enum Entry {
    /// `from` sends its lane's message number `ssn` to `to`, which may be down, and may be the sender.
    Send {
        from: Pid,
        to: Pid,
        ssn: u32,
    },
    /// `to` delivers the message that the entry at position `send` sends. It is delivery number `rsn` of the
    /// receiver's lane, and adds the listed determinants to the receiver's volatile log.
    Deliver {
        to: Pid,
        send: u32,
        rsn: u32,
        listed: Dets,
    },
    /// The determinant is in stable storage from this entry on.
    Stable {
        det: Det,
    },
    /// `who` crashes and loses its state and its volatile log.
    Crash {
        who: Pid,
    },
    /// `who` restarts in a new lane, with the listed determinants in its volatile log.
    Restart {
        who: Pid,
        listed: Dets,
    },
    /// `who` removes the listed determinants from its volatile log.
    Forget {
        who: Pid,
        listed: Dets,
    },
}

impl Entry {
    ghost use Rattle.causal_trace.specs.Past.{listed_by, mentioned_dets};

    /// Returns the number of determinants that the entry lists.
    pub fn listed_count(&self) -> usize
        ensures { result ≡ length (listed_by self.now) }
    {
        match self {
            Entry::Deliver { listed, .. } => listed.as_slice().len(),
            Entry::Restart { listed, .. } => listed.as_slice().len(),
            Entry::Forget { listed, .. } => listed.as_slice().len(),
            _ => 0,
        }
    }

    /// Returns the determinants that the entry mentions: those that it lists, or the one that it writes to stable storage.
    pub fn mentioned_dets(&self) -> &[Det]
        ensures { result.now ≡ mentioned_dets self.now }
    {
        match self {
            Entry::Stable { det } => slice::from_ref(det),
            Entry::Deliver { listed, .. } => listed.as_slice(),
            Entry::Restart { listed, .. } => listed.as_slice(),
            Entry::Forget { listed, .. } => listed.as_slice(),
            Entry::Send { .. } => &[],
            Entry::Crash { .. } => &[],
        }
    }
}

/// Returns the line of the entry at a position in the trace's text. Lines count from 1; line 1 is the header.
pub fn line_at(position: u32) -> u64
    ensures { result ≡ line_at position }
{
    u64::from(position) + 2
}

/// Checks whether an optional determinant is `det`.
pub fn is_det(own: Option<Det>, det: Det) -> bool
    ensures { result ≡ is_det own det }
{
    match own {
        Some(own) => own == det,
        None => false,
    }
}
