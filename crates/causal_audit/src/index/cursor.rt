//! A cursor over an ascending list of positions.
ghost use Rattle.std.specs.Prelude.{◌≤◌, ◌<◌, Contains, List, ℕ};
ghost use Rattle.std.specs.List.Sorted.{IsNonDecreasing};

/// An ascending list of positions, and how many of them have been passed.
#[derive(Clone, Copy)]
pub struct Cursor<'a> {
    pub list: &'a [u32],
    pub passed: usize,
    ghost ascending: { IsNonDecreasing list.now },
}

impl Cursor<'_> {
    ghost use Rattle.causal_audit.specs.Inside.PositionLists.{IsCursor, HasNoneUntil};

    /// Returns a cursor that has passed the positions below `from`.
    pub fn new(list: &[u32], from: u32) -> Cursor<'_>
        requires ascending { IsNonDecreasing list.now }
        ensures { IsCursor list.now from result }
    {
        Cursor {
            list,
            passed: list.partition_point(|position| *position < from),
        }
    }

    /// Passes the positions below `from`, and returns the first position that is left, or `end` if that is earlier.
    /// Scans one by one, since a call passes few positions.
    pub fn next(&mut self, from: u32, end: u32) -> u32
        requires { from ≤ end }
        ensures bounds { (from ≤ result) × (result ≤ end) }
        ensures cursor { (list : List ℕ) → IsCursor list from self.old →
            IsCursor list from self.new }
        ensures none { (list : List ℕ) → IsCursor list from self.old →
            HasNoneUntil list from result }
        ensures found { (list : List ℕ) → IsCursor list from self.old → result < end →
            Contains list result }
    {
        while let Some(position) = self.list.get(self.passed) {
            if *position >= from {
                return (*position).min(end);
            }
            self.passed += 1;
        }
        end
    }
}
