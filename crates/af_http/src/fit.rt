/// What a path is to the segments of a path of the table.
#[derive(Clone, Copy, Debug, PartialEq, Eq)]
pub enum Fit {
    /// It is not of their form.
    Other,
    /// It is, and one of its parts has no text, or one that is too long for a name.
    Unfit,
    /// It is, and its parts have these texts.
    Fits,
}
