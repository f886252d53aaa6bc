//! Which part of a run a picture shows.
ghost use Rattle.std.specs.Prelude.{◌≡◌};
ghost use Rattle.causal_picture.specs.Selections.{whole};

/// Which part of a run a picture shows.
#[derive(Clone, Copy)]
pub struct Selection {
    /// The position of the entry around which entries are shown; without one they end at the focus.
    pub around: Option<u32>,
    /// Whether only processes of the focus are shown.
    pub only_focus: bool,
}

impl Selection {
    /// Returns the selection of all processes, and of entries by the focus.
    pub fn whole() -> Self
        ensures { result ≡ whole }
    {
        Self {
            around: None,
            only_focus: false,
        }
    }
}
