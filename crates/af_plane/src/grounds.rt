use af_board::{Mark, Receipt, Spent};

/// What a session holds of its last answer that was decided under a version.
pub enum Grounds {
    /// It was decided under this version.
    Under(Mark),
    /// It made a version.
    Made(Receipt),
    /// A change was decided under this version, and another version was published before it.
    Overtaken(Mark),
    /// A change was decided under this version, and the places of the board are used up.
    Spent(Mark, Spent),
}

impl Drop for Grounds {
    fn drop(self) {
        match self {
            Grounds::Under(_) => {}
            Grounds::Made(_) => {}
            Grounds::Overtaken(_) => {}
            Grounds::Spent(_, _) => {}
        }
    }
}
