//! Laws of sets of processes, for callers and for proofs of other crates.
ghost use Rattle.std.specs.Prelude.{◌≡◌, ℕ, ◌<◌, ◌↔◌, Bool, true, nat_eq, length};
ghost use Rattle.std.specs.List.{list_any};
ghost use Rattle.std.specs.List.Sorted.{IsStrictlyIncreasing};
ghost use Rattle.std.specs.Ordering.{nat_cmp};
ghost use Rattle.std.specs.FinSet as set;
ghost use Rattle.causal_name.specs.Sets.{count_below, union_test, IsSubsetBelow};
ghost use Rattle.causal_holders.specs.declared.TheConstants.{PROCESSES};
ghost use Rattle.causal_holders.specs.Members.{AreProcesses, ascending, HasMembers};
ghost use Rattle.causal_holders.specs.SameMembers.{have_same_members};

/// The list that [`crate::Holders::iter`] yields contains exactly the members, strictly ascends, and is as long as
/// the set.
pub fn ascending_law()
    ensures members { (s : set.FinSet nat_cmp) (q : ℕ) → q < PROCESSES →
        list_any (nat_eq q) (ascending s) ≡ set.contains s q }
    ensures rising { (s : set.FinSet nat_cmp) → IsStrictlyIncreasing (ascending s) }
    ensures counted { (s : set.FinSet nat_cmp) → AreProcesses s → length (ascending s) ≡ set.len s }
{}

/// `==` on sets returns whether they have the same members, and such sets are equal.
pub fn equality_law()
    ensures { (s t : set.FinSet nat_cmp) → (have_same_members s t ≡ true) ↔ (s ≡ t) }
{}

/// If a set has the members of a test, it has as many members as pass. The union of two such sets has the members of
/// either test. One is a subset of the other if and only if its test is within the other's.
pub fn counting_law()
    ensures counted { (n : ℕ) (s : set.FinSet nat_cmp) (test : ℕ → Bool) → HasMembers n s test →
        set.len s ≡ count_below n test }
    ensures united { (n : ℕ) (s t : set.FinSet nat_cmp) (a b : ℕ → Bool) → HasMembers n s a →
        HasMembers n t b →
        HasMembers n (set.union s t) (union_test a b) }
    ensures within { (n : ℕ) (s t : set.FinSet nat_cmp) (a b : ℕ → Bool) → HasMembers n s a →
        HasMembers n t b →
        (set.is_subset s t ≡ true) ↔ IsSubsetBelow n a b }
{}
