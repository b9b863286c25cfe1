ghost use Rattle.std.specs.Prelude.{◌≡◌, ◌+◌, drop};

/// Which rows of a listing are asked for: `offset` rows are passed over, and then at most `limit` are told.
#[derive(Clone, Copy, Debug, PartialEq, Eq)]
pub struct Span {
    pub limit: u32,
    pub offset: u32,
}

impl Span {
    /// How many rows there are up to the last that is asked for.
    pub(crate) fn end(self) -> usize
        ensures { result ≡ self.offset + self.limit }
    {
        self.offset as usize + self.limit as usize
    }

    /// What is left of a list where as many are passed over as are to be.
    pub(crate) fn past<'a, T>(self, list: &'a [T]) -> &'a [T]
        ensures { result.now ≡ drop self.offset list.now }
    {
        match list.get(self.offset as usize..) {
            Some(rest) => rest,
            None => &[],
        }
    }
}
