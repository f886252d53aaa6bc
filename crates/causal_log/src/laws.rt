//! Laws of logs, piggybacks and stable storage, determinant by determinant: for callers, and for proofs that depend
//! on this crate.
#![tactic(auto, using(crate::proofs::Rules::of_laws, crate::proofs::Rules::of_lists))]

ghost use Rattle.std.specs.Prelude.{◌≡◌, ℕ, ◌+◌, ◌<◌, ◌==◌, true, false, not, length, ◌&&◌, ◌||◌, ◌⊎◌, if◌then◌else◌, List, Some, None, is_some};
ghost use Rattle.std.specs.List.{list_any};
ghost use Rattle.std.specs.Option.{option_map};
ghost use Rattle.std.specs.FinMap as fin;
ghost use Rattle.std.specs.FinSet as set;
ghost use Rattle.causal_name.specs.declared.Det.{Det};
ghost use Rattle.causal_name.specs.declared.Pid.{Pid};
ghost use Rattle.causal_name.specs.Names.{same_det, is_before, is_ascending};
ghost use Rattle.causal_log.specs.declared.known.Known.{Known};
ghost use Rattle.causal_log.specs.declared.batch.Item.{Item};
ghost use Rattle.causal_log.specs.Slots.{is_of_slot, first_of_slot};
ghost use Rattle.causal_log.specs.Knowledge.{union_with, as_stable};
ghost use Rattle.causal_log.specs.Logs.{LogMap, known_of, after_learn, after_absorb, after_union, after_mark, after_drop_stable, not_logged_in, stable_in, unstable_in, is_in_batch, batch_items, dets_of, union_len, names_det, names_holder, IsLogged, IsEntryAt};
ghost use Rattle.causal_log.specs.Stores.{DetSet, with_det, set_has, count_in, dets_in};

/// Learning of one determinant changes only its entry, and adds an entry if it was not logged.
pub fn learn_law()
    ensures known { (log : LogMap) (det other : Det) (known : Known) →
        fin.get (after_learn log det known) other
        ≡ (if same_det other det then Some (union_with
        (known_of log det) known) else fin.get log other) }
    ensures size { (log : LogMap) (det : Det) (known : Known) →
        fin.len (after_learn log det known)
        ≡ fin.len log + (if is_some (fin.get log det) then 0 else 1) }
{}

/// After a message's items are absorbed, the log also has their determinants. The known holders of each grow by the
/// item's holders, the sender and the receiver, and by no other process. No mark changes. A batch adds as many
/// entries as it names determinants that were not logged.
pub fn absorb_law()
    ensures logged { (items : List Item) (from me : Pid) (log : LogMap) (det : Det) →
        is_some (fin.get (after_absorb items from me log) det)
        ≡ (is_some (fin.get log det) || names_det det items) }
    ensures holders { (items : List Item) (from me : Pid) (log : LogMap) (det : Det) (p : ℕ) →
        set.contains (known_of (after_absorb items from me log) det).holders p
        ≡ (set.contains (known_of log det).holders p
        || list_any (λ item. same_det det item.det && (set.contains item.holders p ||
        (p == from.0 || p == me.0)))
        items) }
    ensures stable { (items : List Item) (from me : Pid) (log : LogMap) (det : Det) →
        (known_of (after_absorb items from me log) det).stable ≡ (known_of log det).stable }
    ensures size { (items : List Item) (from me : Pid) (log : LogMap) →
        is_ascending (dets_of items) ≡ true →
        fin.len (after_absorb items from me log)
        ≡ fin.len log + length (not_logged_in log (dets_of items)) }
{}

/// The union of two logs has the determinants of both, each with the holders that either log knows, and with the mark
/// if either log has it. It adds as many entries as the other log has determinants that were not logged, so its size
/// can be counted without allocation.
pub fn union_law()
    ensures logged { (log other : LogMap) (det : Det) →
        is_some (fin.get (after_union log other) det)
        ≡ (is_some (fin.get log det) || is_some (fin.get other det)) }
    ensures holders { (log other : LogMap) (det : Det) (p : ℕ) →
        set.contains (known_of (after_union log other) det).holders p
        ≡ (set.contains (known_of log det).holders p || set.contains
        (known_of other det).holders p) }
    ensures stable { (log other : LogMap) (det : Det) →
        (known_of (after_union log other) det).stable
        ≡ ((known_of log det).stable || (known_of other det).stable) }
    ensures size { (log other : LogMap) → fin.len (after_union log other) ≡ union_len log other }
{}

/// Marking changes only the marked entry, and leaves its holders; dropping what is stable leaves the other entries
/// unchanged.
pub fn mark_law()
    ensures marked { (log : LogMap) (det other : Det) →
        fin.get (after_mark log det) other
        ≡ (if same_det other det then option_map as_stable
        (fin.get log other) else fin.get log other) }
    ensures unmarked { (log : LogMap) (det : Det) →
        fin.get (after_drop_stable log) det
        ≡ (if (known_of log det).stable then None else fin.get log det) }
{}

/// What a message carries strictly ascends. It is exactly what is logged without a mark and with at most f known
/// holders, each determinant with its known holders. A logged determinant that it leaves out is known to be stable or
/// has more than f known holders.
pub fn choose_law()
    ensures ascending { (f : ℕ) (log : LogMap) → is_ascending (dets_of (batch_items f log)) ≡ true }
    ensures carried { (f : ℕ) (log : LogMap) (det : Det) →
        names_det det (batch_items f log) ≡ is_in_batch f (fin.get log det) }
    ensures holders { (f : ℕ) (log : LogMap) (det : Det) (p : ℕ) →
        names_holder det p (batch_items f log)
        ≡ (is_in_batch f (fin.get log det) && set.contains (known_of log det).holders p) }
    ensures left_out { (f : ℕ) (log : LogMap) (det : Det) (known : Known) → IsLogged log det known →
        names_det det (batch_items f log) ≡ false → (known.stable ≡ true) ⊎
        (f < set.len known.holders) }
{}

/// The entries of a log, by ascending determinant, have one index each: what is at an index is an entry, and each
/// entry is at an index.
pub fn places_law()
    ensures ascending { (log : LogMap) → is_ascending (fin.keys log) ≡ true }
    ensures shown { (log : LogMap) (i : ℕ) (det : Det) (known : Known) →
        IsEntryAt log i det known → IsLogged log det known }
    ensures found { (log : LogMap) (det : Det) (known : Known) →
        IsLogged log det known → (i : ℕ) × IsEntryAt log i det known }
{}

/// A determinant is logged if and only if it is one of the log's determinants. Those known to be stable ascend, and
/// are exactly those with a mark; the others ascend, and are exactly those logged without a mark. Together they are
/// all of the log's determinants. The others are what is left once the stable ones are dropped.
pub fn listing_law()
    ensures logged { (log : LogMap) (det : Det) →
        list_any (same_det det) (fin.keys log) ≡ is_some (fin.get log det) }
    ensures stable_ascends { (log : LogMap) → is_ascending (stable_in log) ≡ true }
    ensures stable { (log : LogMap) (det : Det) →
        list_any (same_det det) (stable_in log) ≡ (known_of log det).stable }
    ensures unstable_ascends { (log : LogMap) → is_ascending (unstable_in log) ≡ true }
    ensures unstable { (log : LogMap) (det : Det) →
        list_any (same_det det) (unstable_in log)
        ≡ (is_some (fin.get log det) && not (known_of log det).stable) }
    ensures all { (log : LogMap) → length (stable_in log) + length (unstable_in log) ≡ fin.len log }
    ensures left { (log : LogMap) → fin.keys (after_drop_stable log) ≡ unstable_in log }
{}

/// The first determinant of a slot in an ascending list is the least one of that slot.
pub fn slot_law()
    ensures fills { (dest : Pid) (rsn : ℕ) (dets : List Det) (least : Det) →
        first_of_slot dest rsn dets ≡ Some least →
        (is_of_slot dest rsn least ≡ true) × (list_any (same_det least) dets ≡ true) }
    ensures least { (dest : Pid) (rsn : ℕ) (dets : List Det) (least det : Det) →
        is_ascending dets ≡ true →
        first_of_slot dest rsn dets ≡ Some least → list_any (same_det det) dets ≡ true →
        is_of_slot dest rsn det ≡ true → (least ≡ det) ⊎ (is_before least det ≡ true) }
    ensures none { (dest : Pid) (rsn : ℕ) (dets : List Det) (det : Det) →
        first_of_slot dest rsn dets ≡ None →
        list_any (same_det det) dets ≡ true → is_of_slot dest rsn det ≡ false }
{}

/// A store's members ascend, and a determinant is a member if and only if it is one of them. After one is added, the
/// members are that one and those before. A store with no members is empty.
pub fn store_law()
    ensures ascending { (s : DetSet) → is_ascending (dets_in s) ≡ true }
    ensures listed { (s : DetSet) (det : Det) →
        set_has s det ≡ list_any (same_det det) (dets_in s) }
    ensures stored { (s : DetSet) (det other : Det) →
        set_has (with_det s det) other ≡ (same_det other det || set_has s other) }
    ensures empty { (s : DetSet) → count_in s ≡ 0 → s ≡ fin.empty }
{}
