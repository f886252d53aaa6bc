//! The determinants that a delivery lists.
ghost use Rattle.std.specs.Prelude.{◌≡◌, ◌≤◌, ◌+◌, ◌++◌, length, vec_len, vec_capacity, IfOk};
ghost use Rattle.causal_log.specs.Logs.{dets_of};
ghost use Rattle.causal_protocol.specs.Naming.{with_own};

use causal_log::{Batch, Item};
use causal_name::{Det, NoMemory};
use causal_trace::entry::Dets;
use std::alloc::Global;

/// Returns the number of determinants in a batch with one more, unless the batch contains it.
#[tactic(auto, using(crate::proofs::Lemmas::ListInsert::put_len, crate::proofs::Lemmas::ListInsert::kept_len))]
pub fn listed_len(own: Det, batch: &Batch) -> usize
    ensures { result ≡ length (with_own own (dets_of batch.now)) }
{
    let len = batch.as_slice().len();
    match batch.place_for(own) {
        Some(_) => len + 1,
        None => len,
    }
}

/// Returns the determinants of a batch, ascending, with one more at its position, unless the batch contains it.
#[tactic(auto, using(crate::proofs::Rules::of_listed))]
pub fn listed_dets(alloc: Global, own: Det, batch: &Batch) -> Result<Dets, NoMemory>
    ensures { IfOk result (λ dets. dets ≡ with_own own (dets_of batch.now)) }
{
    let items = batch.as_slice();
    if items.is_empty() {
        return Ok(Dets::one(own));
    }
    let mut listed = Vec::with_capacity(alloc, items.len() + 1)?;
    let Some(place) = batch.place_for(own) else {
        append_dets(&mut listed, items);
        return Ok(Dets::new(listed));
    };
    append_dets(&mut listed, &items[..place]);
    listed.push_reserved(own);
    append_dets(&mut listed, &items[place..]);
    Ok(Dets::new(listed))
}

/// Appends the determinants of items, in reserved capacity.
#[tactic(auto, using(crate::proofs::Rules::of_listing))]
fn append_dets(listed: &mut Vec<Det>, items: &[Item])
    requires { vec_len listed.old + length items.now ≤ vec_capacity listed.old }
    ensures items { listed.new.items ≡ listed.old.items ++ dets_of items.now }
    ensures len { vec_len listed.new ≡ vec_len listed.old + length items.now }
    ensures capacity { vec_capacity listed.new ≡ vec_capacity listed.old }
{
    for item in items {
        listed.push_reserved(item.det);
    }
}
