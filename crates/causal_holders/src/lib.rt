//! Sets of processes by their numbers. Begin at [`Holders`]; [`laws`] relates the sets to tests of numbers.
//!
//! A set is four words with one bit for each number, so union, difference and length are a few word operations, and a
//! set is copied like a number.
#![tactic(auto)]

/// Laws that relate the sets to tests of numbers.
pub mod laws;

ghost use Rattle.std.specs.Prelude.{◌≡◌, MatchOption};
ghost use Rattle.std.specs.FinSet as set;
ghost use Rattle.causal_holders.specs.Members.{AreProcesses, IsLeast};

use std::marker::Model;

/// The greatest number of processes; they are numbered from 0.
pub const PROCESSES: u16 = 256;

/// The number of bits in a word.
const WORD: u8 = 64;

/// The number of words with a bit for each number.
const WORDS: usize = PROCESSES as usize / WORD as usize;

/// A set of processes, for example the holders of a determinant, the down processes, or a crash set.
pub type Holders = ByteSet;

/// A set of bytes: of process numbers, or of slots in a table.
///
/// Contracts see it as the finite set of its members, each below [`PROCESSES`]. No call fails or allocates.
#[derive(Clone, Copy, Debug)]
pub struct ByteSet {
    words: [u64; WORDS],
}

impl Model for ByteSet {
    ghost use Rattle.std.specs.Ordering.{nat_cmp};
    ghost use Rattle.std.specs.FinSet as set;
    ghost use Rattle.std.specs.Coded.{coded_ℕ};
    ghost use Rattle.causal_holders.specs.declared.TheConstants.{PROCESSES};
    ghost use Rattle.causal_holders.specs.Members.{numbers_below};
    ghost use Rattle.causal_holders.specs.Inside.Words.{has_member, words_of, AreWords};
    ghost use Rattle.causal_holders.specs.Inside.WordLemmas.{words_shown};

    ghost Value = { set.FinSet nat_cmp };

    ghost coded = { set.code coded_ℕ };

    ghost view = { λ a. numbers_below PROCESSES (has_member a.words) };

    ghost invariant = { λ a. AreWords a.words };

    ghost inverse = { λ s. record { words = words_of (set.contains s) } };

    ghost inverse_ok = { λ a h i. record { words = words_shown a.words h i } };
}

impl ByteSet {
    /// Returns the empty set.
    pub fn none() -> Self
        ensures { result ≡ set.empty }
    {
        Self { words: [0; WORDS] }
    }

    /// Adds a number; does nothing if it is a member.
    pub fn insert(&mut self, number: u8)
        ensures { self.new ≡ set.insert self.old number }
    {
        self.words[usize::from(number / WORD)] |= 1 << (number % WORD);
    }

    /// Removes a number; does nothing if it is not a member.
    pub fn remove(&mut self, number: u8)
        ensures { self.new ≡ set.remove self.old number }
    {
        self.words[usize::from(number / WORD)] &= !(1 << (number % WORD));
    }

    /// Returns whether the number is a member.
    pub fn contains(self, number: u8) -> bool
        ensures { result ≡ set.contains self number }
    {
        self.words[usize::from(number / WORD)] >> (number % WORD) & 1 == 1
    }

    /// Returns the numbers that are in this set or in the other.
    pub fn union(self, other: Self) -> Self
        ensures { result ≡ set.union self other }
    {
        Self {
            words: [
                self.words[0] | other.words[0],
                self.words[1] | other.words[1],
                self.words[2] | other.words[2],
                self.words[3] | other.words[3],
            ],
        }
    }

    /// Returns the numbers that are in this set and not in the other.
    pub fn minus(self, other: Self) -> Self
        ensures { result ≡ set.difference self other }
    {
        Self {
            words: [
                self.words[0] & !other.words[0],
                self.words[1] & !other.words[1],
                self.words[2] & !other.words[2],
                self.words[3] & !other.words[3],
            ],
        }
    }

    /// Returns the number of members, from 0 to [`PROCESSES`].
    pub fn len(self) -> u32
        ensures counted { result ≡ set.len self }
        ensures members { AreProcesses self }
    {
        self.words[0].count_ones()
            + self.words[1].count_ones()
            + self.words[2].count_ones()
            + self.words[3].count_ones()
    }

    /// Returns whether each member of this set is a member of the other.
    pub fn is_subset(self, other: Self) -> bool
        ensures { result ≡ set.is_subset self other }
    {
        self.minus(other) == Self::none()
    }

    /// Returns the least member, or `None` if the set is empty.
    pub fn least(self) -> Option<u8>
        ensures { MatchOption result (self ≡ set.empty) (λ number. IsLeast self number) }
    {
        let word = self.words.iter().position(|&word| word != 0)?;
        Some(WORD * word as u8 + self.words[word].trailing_zeros() as u8)
    }

    /// Returns an iterator over the members, in ascending order.
    pub fn iter(self) -> Iter
        ensures { result ≡ self }
    {
        Iter { rest: self }
    }
}

impl PartialEq for ByteSet {
    ghost use Rattle.causal_holders.specs.SameMembers.{have_same_members, same_members_laws};

    ghost eq = { have_same_members };

    ghost laws = { same_members_laws };

    fn eq(&self, other: &ByteSet) -> bool {
        self.words == other.words
    }
}

impl Eq for ByteSet {
    ghost use Rattle.causal_holders.specs.SameMembers.{same_members_equivalence};

    ghost laws = { same_members_equivalence };
}

/// An iterator over the members of a set, in ascending order.
#[derive(Clone, Debug, Drop)]
pub struct Iter {
    rest: ByteSet,
}

impl Model for Iter {
    ghost use Rattle.std.specs.Ordering.{nat_cmp};
    ghost use Rattle.std.specs.FinSet as set;
    ghost use Rattle.std.specs.Coded.{coded_ℕ};

    ghost Value = { set.FinSet nat_cmp };

    ghost coded = { set.code coded_ℕ };

    ghost view = { λ a. a.rest };
}

impl Iterator for Iter {
    ghost use Rattle.std.specs.Iterator.{YieldsFirst, item_count};
    ghost use Rattle.causal_holders.specs.Members.{ascending};

    type Item = u8;

    ghost next_gives = { YieldsFirst ascending };

    ghost remaining = { item_count ascending };

    fn next(&mut self) -> Option<u8> {
        let number = self.rest.least()?;
        self.rest.remove(number);
        Some(number)
    }
}
