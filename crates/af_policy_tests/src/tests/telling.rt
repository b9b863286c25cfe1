//! What is told, compared piece by piece with the text that is wanted, so that no text of the whole is made and owned.
use af_role::Permissions;
use std::alloc::Global;
use std::process::Abort;

/// What is told, beside the text that is wanted.
#[derive(Clone, Copy)]
pub struct Telling<'a> {
    /// What is wanted beyond the pieces that are told.
    rest: &'a [u8],
    /// Whether a piece was another than what was wanted in its place.
    is_other: bool,
}

impl<'a> Telling<'a> {
    /// Nothing is told yet, and this is wanted.
    pub fn of(wanted: &'a str) -> Telling<'a> {
        Telling {
            rest: wanted.as_bytes(),
            is_other: false,
        }
    }

    /// Tells a piece.
    pub fn tell(&mut self, piece: &str) {
        match self.rest.strip_prefix(piece.as_bytes()) {
            Some(rest) => self.rest = rest,
            None => self.is_other = true,
        }
    }

    /// Tells permissions, each with a comma.
    pub fn tell_permissions(&mut self, rt: &impl Abort, alloc: Global, permissions: &Permissions) {
        for pair in permissions.iter() {
            let text = format!(in alloc; "{pair},").expect(rt, "the text of a permission");
            self.tell(text.as_str());
        }
    }

    /// Whether just what is wanted was told.
    pub fn is_wanted(&self) -> bool {
        self.rest.is_empty() && !self.is_other
    }
}
