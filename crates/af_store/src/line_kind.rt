ghost use Rattle.std.specs.Prelude.{◌≡◌};
ghost use Rattle.af_store.specs.Chains.{kind_text};

/// The kinds of lines.
#[derive(Clone, Copy, Debug, PartialEq, Eq)]
pub enum LineKind {
    /// The store was opened with a configuration.
    Opened,
    /// Something was done to the state.
    Entry,
    /// The policy was changed.
    Change,
}

impl LineKind {
    /// The text of the kind.
    pub fn text(self) -> &'static str
        ensures { result.now ≡ kind_text self }
    {
        match self {
            LineKind::Opened => "opened",
            LineKind::Entry => "entry",
            LineKind::Change => "change",
        }
    }
}
