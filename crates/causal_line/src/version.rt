//! The versions of the format.
ghost use Rattle.std.specs.Prelude.{◌≡◌, ◌≤◌};
ghost use Rattle.std.specs.List.{list_all};
ghost use Rattle.causal_line.specs.Versions.{version_number, version_of, max_processes_in, allows};

use causal_trace::entry::Entry;

/// A version of the format; a header contains its number.
#[derive(Clone, Copy)]
pub enum Version {
    /// Up to 64 processes; a process loses logged determinants only by a crash.
    One,
    /// Up to 256 processes, which may also forget logged determinants.
    Two,
}

impl Version {
    /// Returns the version of this number; None if there is none.
    pub fn of(number: u32) -> Option<Version>
        ensures { result ≡ version_of number }
    {
        match number {
            1 => Some(Version::One),
            2 => Some(Version::Two),
            _ => None,
        }
    }

    /// Returns the version's number.
    pub fn number(self) -> u32
        ensures { result ≡ version_number self }
    {
        match self {
            Version::One => 1,
            Version::Two => 2,
        }
    }

    /// Returns the maximum number of processes of its texts.
    pub fn max_processes(self) -> u32
        ensures value { result ≡ max_processes_in self }
        ensures few { result ≤ 256 }
    {
        match self {
            Version::One => 64,
            Version::Two => 256,
        }
    }

    /// Checks whether the version has lines for this kind of entry.
    pub fn allows(self, entry: &Entry) -> bool
        ensures { result ≡ allows self entry.now }
    {
        match (self, entry) {
            (Version::One, Entry::Forget { .. }) => false,
            _ => true,
        }
    }

    /// Checks whether the version has lines for all these entries.
    pub fn allows_all(self, entries: &[Entry]) -> bool
        ensures { result ≡ list_all (allows self) entries.now }
    {
        for entry in entries {
            if !self.allows(entry) {
                return false;
            }
        }
        true
    }
}
