//! One number for each slot.
ghost use Rattle.std.specs.Prelude.{◌≡◌, ◌&&◌, ◌==◌, ℕ, Some, None, [], IfOk, OnOk, replicate, slice_index_or, vec_len, if◌then◌else◌};
ghost use Rattle.causal_replays.specs.Inside.Holdings.{lists_in};
ghost use Rattle.causal_replays.specs.Inside.Slots.{slot_number};

use causal_holders::PROCESSES;
use causal_name::{NoMemory, Slot};
use std::alloc::Global;

/// Writes a number at an index of a list, which grows as far as needed.
fn write_at(list: &mut Vec<Option<u32>>, index: u32, number: u32) -> Result<(), NoMemory>
    ensures { OnOk result ((r : ℕ) → slice_index_or list.new.items r None ≡
        if r == index then Some number else slice_index_or list.old.items r None) }
{
    let index = index as usize;
    if list.len() <= index {
        list.resize(index + 1, None)?;
    }
    list[index] = Some(number);
    Ok(())
}

/// Returns an empty list for each process.
pub fn empty_process_lists<T: Drop>(alloc: Global) -> Result<Vec<Vec<T>>, NoMemory>
    ensures count { IfOk result (λ lists. vec_len lists ≡ 256) }
    ensures empty { IfOk result (λ lists. lists_in lists.items ≡ replicate 256 []) }
{
    let mut lists = Vec::new(alloc);
    for _ in 0..PROCESSES {
        lists.push(Vec::new(alloc))?;
    }
    Ok(lists)
}

/// Returns the number of a slot.
pub fn slot_number(slots: &Vec<Vec<Option<u32>>>, slot: Slot) -> Option<u32>
    requires { vec_len slots.now ≡ 256 }
    ensures { result ≡ slot_number slots.now.items slot.dest.0 slot.rsn }
{
    let list = &slots[usize::from(slot.dest.0)];
    *list.get(slot.rsn as usize)?
}

/// Sets the number of a slot.
pub fn set_number(
    slots: &mut Vec<Vec<Option<u32>>>,
    slot: Slot,
    number: u32,
) -> Result<(), NoMemory>
    requires { vec_len slots.old ≡ 256 }
    ensures set { OnOk result ((p r : ℕ) → slot_number slots.new.items p r ≡
        if slot.dest.0 == p && r == slot.rsn then Some number else slot_number slots.old.items p r) }
    ensures count { vec_len slots.new ≡ 256 }
{
    write_at(&mut slots[usize::from(slot.dest.0)], slot.rsn, number)
}
