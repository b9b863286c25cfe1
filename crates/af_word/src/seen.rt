ghost use Rattle.std.specs.Prelude.{◌≡◌, ◌/◌, ◌%◌, ◌^◌};
ghost use Rattle.af_word.specs.Places.{word_of};

/// A version, from 0 on, and the place in the table that stands there.
#[derive(Clone, Copy, Debug, PartialEq, Eq)]
pub struct Seen {
    pub version: u32,
    pub index: u32,
}

impl Seen {
    /// What a word names.
    pub(crate) fn unpacked(word: u64) -> Seen
        ensures { (result.version ≡ word / 2 ^ 32) × (result.index ≡ word % 2 ^ 32) }
    {
        Seen {
            version: (word / 0x1_0000_0000) as u32,
            index: (word % 0x1_0000_0000) as u32,
        }
    }

    /// The word that names it.
    pub(crate) fn packed(self) -> u64
        ensures { result ≡ word_of self.version self.index }
    {
        u64::from(self.version) * 0x1_0000_0000 + u64::from(self.index)
    }
}
