//! The processes that hold each determinant, by number.
ghost use Rattle.std.specs.Prelude.{◌≡◌, ◌<◌, ◌||◌, ◌&&◌, ◌==◌, ◌⊎◌, ◌↔◌, ℕ, not, true, false, length, slice_index, OnOk, vec_len};
ghost use Rattle.causal_replays.specs.Inside.Holdings.{holds, AreLogged, IsIn, lists_in};

use causal_holders::Holders;
use causal_name::NoMemory;

/// Adds a holder of the determinant with this number, and the number to the holder's list.
pub fn add_holder(
    holders: &mut Vec<Holders>,
    logs: &mut Vec<Vec<u32>>,
    number: u32,
    who: u8,
) -> Result<(), NoMemory>
    requires number { number < vec_len holders.old }
    requires logs { vec_len logs.old ≡ 256 }
    requires logged { AreLogged holders.old.items logs.old.items }
    ensures held { OnOk result ((i p : ℕ) → holds holders.new.items i p ≡
        ((i == number && who == p) || holds holders.old.items i p)) }
    ensures count { vec_len holders.new ≡ vec_len holders.old }
    ensures logs { vec_len logs.new ≡ 256 }
    ensures logged { OnOk result (AreLogged holders.new.items logs.new.items) }
{
    let i = number as usize;
    if holders[i].contains(who) {
        return Ok(());
    }
    logs[usize::from(who)].push(number)?;
    holders[i].insert(who);
    Ok(())
}

/// Removes a holder of the determinant with this number.
#[tactic(auto, using(crate::proofs::HolderLemmas::held_less))]
pub fn remove_holder(holders: &mut Vec<Holders>, number: u32, who: u8)
    requires { number < vec_len holders.old }
    ensures held { (i p : ℕ) → holds holders.new.items i p ≡
        (not (i == number && who == p) && holds holders.old.items i p) }
    ensures count { vec_len holders.new ≡ vec_len holders.old }
{
    holders[number as usize].remove(who);
}

/// Removes a holder of each of these determinants.
pub fn remove_from_each(holders: &mut Vec<Holders>, numbers: &[u32], who: u8)
    requires { (k : ℕ) → k < length numbers.now → slice_index numbers.now k < vec_len holders.old }
    ensures removed { (i : ℕ) → IsIn numbers.now i → holds holders.new.items i who ≡ false }
    ensures others { (i p : ℕ) → (p ≡ who → ⊥) →
        holds holders.new.items i p ≡ holds holders.old.items i p }
    ensures fewer { (i p : ℕ) → holds holders.new.items i p ≡ true →
        holds holders.old.items i p ≡ true }
    ensures count { vec_len holders.new ≡ vec_len holders.old }
{
    for number in numbers {
        remove_holder(holders, *number, who);
    }
}

/// Removes a holder of all determinants, and the numbers from its list.
pub fn clear_log(holders: &mut Vec<Holders>, logs: &mut Vec<Vec<u32>>, who: u8)
    requires logs { vec_len logs.old ≡ 256 }
    requires logged { AreLogged holders.old.items logs.old.items }
    ensures held { (i p : ℕ) → holds holders.new.items i p ≡
        (not (who == p) && holds holders.old.items i p) }
    ensures count { vec_len holders.new ≡ vec_len holders.old }
    ensures logs { vec_len logs.new ≡ 256 }
    ensures logged { AreLogged holders.new.items logs.new.items }
{
    let log = &mut logs[usize::from(who)];
    remove_from_each(holders, log.as_slice(), who);
    log.clear();
}

/// Returns whether the determinant with this number has a holder.
pub fn has_holder(holders: &Vec<Holders>, number: u32) -> bool
    requires { number < vec_len holders.now }
    ensures { (result ≡ true) ↔ ((p : ℕ) × (holds holders.now.items number p ≡ true)) }
{
    holders[number as usize].least().is_some()
}
