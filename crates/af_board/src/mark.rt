ghost use Rattle.std.specs.Prelude.{◌≡◌};

use af_mask::Compiled;
use boxcar::Pushed;
use std::marker::Model;

/// A version of a board: its number, and the table's token of its policy. Version 0 has no token, since the opening policy is not in the
/// table. `Board::policy` and `Board::compiled` lend what a mark names, without a look-up that could fail.
pub struct Mark {
    pub(crate) version: u32,
    pub(crate) token: Option<Pushed<Compiled>>,
}

impl Drop for Mark {
    fn drop(self) {
        let Mark {
            version: _,
            token: _,
        } = self;
    }
}

impl Model for Mark {
    ghost use Rattle.af_board.specs.Marks.{Marked};

    ghost Value = { Marked };

    ghost view = { λ m. record { version = m.version; token = m.token } };
}

impl Mark {
    /// The number of the version.
    pub fn version(&self) -> u32
        ensures { result ≡ self.now.version }
    {
        self.version
    }

    /// The same mark once more. It takes no memory.
    pub fn again(&self) -> Mark
        ensures { result ≡ self.now }
    {
        let token = match &self.token {
            Some(token) => Some(token.again()),
            None => None,
        };
        Mark {
            version: self.version,
            token,
        }
    }
}
