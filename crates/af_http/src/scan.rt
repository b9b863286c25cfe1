/// The whole lines that were found at the front of a text. None of them is empty.
#[derive(Clone, Copy)]
pub struct Scan {
    /// How many bytes they have.
    pub bytes: usize,
    /// How many they are.
    pub lines: usize,
}

/// None was found.
pub const UNSCANNED: Scan = Scan { bytes: 0, lines: 0 };
