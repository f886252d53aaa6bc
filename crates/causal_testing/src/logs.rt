//! Logs, their batches, and the store in memory: each call once, on hand-computed values.
use crate::names::{Fields, det, name};
use causal_holders::Holders;
use causal_log::{Item, Known, Log, MemStable, Stable};
use causal_name::{Det, Pid, Slot};
use std::alloc::Global;

/// The first message from 0 to 1, which is the first that 1 delivers.
const FIRST: Fields = (0, 0, 1, 0);

/// A message from 2 to 1, with the same slot as the first.
const RIVAL: Fields = (2, 0, 1, 0);

/// A message from 2 to 0.
const OTHER: Fields = (2, 0, 0, 0);

fn known_by(processes: &[u8], stable: bool) -> Known {
    let mut holders = Holders::none();
    for &process in processes {
        holders.insert(process);
    }
    Known { holders, stable }
}

fn item(fields: Fields, processes: &[u8]) -> Item {
    Item {
        det: det(fields),
        holders: known_by(processes, false).holders,
    }
}

/// Returns whether a log has exactly these entries in this order.
fn shows(log: &Log, entries: &[(Fields, Known)]) -> bool {
    let mut place: u32 = 0;
    for (fields, known) in entries {
        if log.at(place) != Some((det(*fields), *known)) {
            return false;
        }
        place = place.saturating_add(1);
    }
    log.len() == place && log.at(place).is_none()
}

/// Returns whether a log chooses exactly these items for failure bound f.
fn chooses(alloc: Global, log: &Log, f: u16, items: &[Item]) -> bool {
    match log.choose(alloc, f) {
        Ok(batch) => batch.as_slice() == items,
        Err(_) => false,
    }
}

/// Returns whether the log's determinants, or the stable ones among them, are exactly these.
fn lists(alloc: Global, log: &Log, stable: bool, dets: &[Det]) -> bool {
    let listed = if stable {
        log.stable_dets(alloc)
    } else {
        log.dets(alloc)
    };
    match listed {
        Ok(listed) => listed.as_slice() == dets,
        Err(_) => false,
    }
}

/// Returns whether process 1 logs two deliveries of one slot, for which the lesser message is named, and sends both in
/// ascending order.
fn logs_two_deliveries(alloc: Global, log: &mut Log) -> bool {
    log.add_own(det(RIVAL), Pid(1)).is_ok()
        && log.add_own(det(FIRST), Pid(1)).is_ok()
        && log.for_slot(Pid(1), 0) == Some(name(0, 0))
        && log.for_slot(Pid(1), 1).is_none()
        && log.for_slot(Pid(0), 0).is_none()
        && chooses(alloc, log, 1, &[item(FIRST, &[1]), item(RIVAL, &[1])])
}

fn absorbs_batch(alloc: Global, log: &mut Log, teller: &Log) -> bool {
    match teller.choose(alloc, 1) {
        Ok(batch) => log.absorb(&batch, Pid(1), Pid(2)).is_ok(),
        Err(_) => false,
    }
}

/// Returns whether the received determinants have both holders, are in the batch for f = 2 but not once they are
/// stable; and a missing determinant is not marked.
fn is_absorbed(alloc: Global, log: &mut Log) -> bool {
    log.known(det(FIRST)) == Some(known_by(&[1, 2], false))
        && chooses(alloc, log, 1, &[])
        && chooses(alloc, log, 2, &[item(FIRST, &[1, 2]), item(RIVAL, &[1, 2])])
        && log.mark_stable(det(FIRST))
        && !log.mark_stable(det(OTHER))
        && chooses(alloc, log, 2, &[item(RIVAL, &[1, 2])])
}

/// Returns whether the log and its copy have the expected entries after the union with process 1's log. A determinant
/// that is stable from the start must have its reader as a holder, and must not be in the batch.
fn is_united(alloc: Global, log: &mut Log, teller: &Log) -> bool {
    let shown = [
        (FIRST, known_by(&[1, 2], true)),
        (OTHER, known_by(&[2], true)),
        (RIVAL, known_by(&[1, 2], false)),
    ];
    log.add_stable(det(OTHER), Pid(2)).is_ok()
        && chooses(alloc, log, 9, &[item(RIVAL, &[1, 2])])
        && log.union_from(teller).is_ok()
        && shows(log, &shown)
        && match log.try_clone() {
            Ok(copy) => shows(&copy, &shown),
            Err(_) => false,
        }
}

/// Returns whether a log lists its determinants and the stable ones among them, and drops exactly the stable ones.
fn drops_stable(alloc: Global, log: &mut Log) -> bool {
    log.sort().is_ok()
        && lists(alloc, log, false, &[det(FIRST), det(OTHER), det(RIVAL)])
        && lists(alloc, log, true, &[det(FIRST), det(OTHER)])
        && log.drop_stable() == 2
        && log.drop_stable() == 0
        && lists(alloc, log, false, &[det(RIVAL)])
}

/// Returns whether a log of process 1's own determinant and a log of it with holder 2 and a mark each have both holders
/// and the mark after the union with the other.
fn is_united_both_ways(alloc: Global, own: &mut Log, marked: &mut Log) -> bool {
    let united = [(FIRST, known_by(&[1, 2], true))];
    let Ok(copy) = own.try_clone() else {
        return false;
    };
    own.union_from(marked).is_ok()
        && shows(own, &united)
        && marked.union_from(&copy).is_ok()
        && shows(marked, &united)
        && chooses(alloc, own, 9, &[])
}

/// Returns whether that holds of two new logs.
fn unites_both_ways(alloc: Global) -> bool {
    let mut own = Log::new(alloc);
    let mut marked = Log::new(alloc);
    own.add_own(det(FIRST), Pid(1)).is_ok()
        && marked.add_stable(det(FIRST), Pid(2)).is_ok()
        && shows(&own, &[(FIRST, known_by(&[1], false))])
        && shows(&marked, &[(FIRST, known_by(&[2], true))])
        && is_united_both_ways(alloc, &mut own, &mut marked)
}

#[test]
fn union_marks_both_ways(rt: HostRuntime) {
    assert!(rt; unites_both_ways(rt.alloc()));
}

/// Returns whether process 2 records the batch of process 1.
fn passes_to_process_2(alloc: Global, teller: &Log) -> bool {
    let mut log = Log::new(alloc);
    absorbs_batch(alloc, &mut log, teller)
        && is_absorbed(alloc, &mut log)
        && is_united(alloc, &mut log, teller)
        && drops_stable(alloc, &mut log)
}

#[test]
fn batches_carry_knowledge(rt: HostRuntime) {
    let mut log = Log::new(rt.alloc());
    assert!(rt; logs_two_deliveries(rt.alloc(), &mut log) && passes_to_process_2(rt.alloc(), &log));
}

/// The slots of the first two messages that 1 delivers.
const SLOTS: [Slot; 2] = [
    Slot {
        dest: Pid(1),
        rsn: 0,
    },
    Slot {
        dest: Pid(1),
        rsn: 1,
    },
];

/// Returns whether a store has exactly these members, by its interface alone.
fn stores(alloc: Global, store: &MemStable, dets: &[Det]) -> bool {
    match store.all(alloc) {
        Ok(all) => all.as_slice() == dets && store.len() == dets.len() as u64,
        Err(_) => false,
    }
}

/// Returns whether a store accepts a determinant twice as one member, then its rival, and names the lesser for their
/// slot.
fn takes_both(alloc: Global, store: &mut MemStable) -> bool {
    store.put(det(RIVAL)).is_ok()
        && store.put(det(RIVAL)).is_ok()
        && stores(alloc, store, &[det(RIVAL)])
        && store.put(det(FIRST)).is_ok()
        && store.contains(det(FIRST))
        && !store.contains(det(OTHER))
        && store.failures() == 0
        && store.least_of(SLOTS[0]) == Some(det(FIRST))
        && store.least_of(SLOTS[1]).is_none()
}

#[test]
fn store_in_memory(rt: HostRuntime) {
    let mut store = MemStable::new(rt.alloc());
    assert!(rt; takes_both(rt.alloc(), &mut store));
}
