ghost use Rattle.std.specs.Prelude.{◌≡◌};
ghost use Rattle.std.specs.Option.{option_copied};
ghost use Rattle.sha2.specs.Sha256.{sha256};

use sha2::{Digest, Sha256};
use std::marker::Model;

/// A token that came with a request, beside its SHA-256. It is hashed once, before a lock is taken. So who brings it is found without
/// hashing. Contracts see its bytes.
#[derive(Drop)]
pub struct Presented<'a> {
    bytes: &'a [u8],
    digest: [u8; 32],
    ghost hashed: { digest ≡ sha256 bytes.now },
}

impl<'a> Model for Presented<'a> {
    ghost use Rattle.std.specs.Prelude.{ℕ, List};

    ghost Value = { List ℕ };

    ghost view = { λ presented. presented.bytes.now };
}

impl<'a> Presented<'a> {
    /// The token that came, if one came.
    pub fn of(token: Option<&'a [u8]>) -> Option<Presented<'a>>
        ensures { result ≡ option_copied token.entry }
    {
        match token {
            Some(bytes) => Some(Presented::hashed(bytes, Sha256::digest(bytes))),
            None => None,
        }
    }

    /// A token of these bytes, whose SHA-256 is this.
    pub fn hashed(bytes: &'a [u8], digest: [u8; 32]) -> Presented<'a>
        requires { digest ≡ sha256 bytes.now }
        ensures { result ≡ bytes.now }
    {
        Presented { bytes, digest }
    }

    /// The bytes of the token.
    pub fn bytes(&self) -> &[u8]
        ensures { result.now ≡ self.now }
    {
        self.bytes
    }

    /// The SHA-256 of the token.
    pub fn digest(&self) -> &[u8; 32]
        ensures { result.now ≡ sha256 self.now }
    {
        &self.digest
    }
}
