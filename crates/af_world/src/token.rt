ghost use Rattle.std.specs.Prelude.{◌≡◌};
ghost use Rattle.std.specs.Option.{option_copied};

use std::marker::Model;

/// The token that a request brings. A contract sees it as its bytes.
#[derive(Drop)]
pub struct Token {
    bytes: Vec<u8>,
}

impl Model for Token {
    ghost use Rattle.std.specs.Prelude.{List, ℕ};

    ghost Value = { List ℕ };

    ghost view = { λ t. t.bytes.items };
}

impl Token {
    /// The token of these bytes. It takes no memory.
    pub fn of(bytes: Vec<u8>) -> Token
        ensures { result ≡ bytes.items }
    {
        Token { bytes }
    }

    /// Its bytes.
    pub fn as_bytes(&self) -> &[u8]
        ensures { result.now ≡ self.now }
    {
        self.bytes.as_slice()
    }
}

/// The bytes of a token, if there is one.
pub(crate) fn bytes_of(token: &Option<Token>) -> Option<&[u8]>
    ensures { option_copied result ≡ token.now }
{
    match token {
        None => None,
        Some(token) => Some(token.as_bytes()),
    }
}
