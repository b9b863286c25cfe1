ghost use Rattle.std.specs.Prelude.{◌≡◌, true};
ghost use Rattle.std.specs.Option.{option_copied};
ghost use Rattle.sha2.specs.Sha256.{sha256};

use af_policy::Presented;
use arrayvec::ArrayVec;
use sha2::{Digest, Sha256};

/// The most bytes of a token that is kept.
const LONGEST: usize = 64;

/// The last token that came, beside its SHA-256, so that one that comes again is not hashed again. One of more than 64 bytes is not kept. It
/// changes no answer.
#[derive(Drop)]
pub struct LastToken {
    token: ArrayVec<u8, LONGEST>,
    digest: [u8; 32],
    ghost hashed: { digest ≡ sha256 token.items },
}

impl LastToken {
    /// The empty token is kept.
    pub fn new() -> LastToken {
        LastToken {
            token: ArrayVec::new(),
            digest: Sha256::digest(b""),
        }
    }

    /// The token that came, if one came. It is kept from now on, unless it is too long.
    pub fn present<'a>(&mut self, token: Option<&'a [u8]>) -> Option<Presented<'a>>
        ensures { result ≡ option_copied token.entry }
    {
        match token {
            Some(bytes) => {
                let digest = self.digest_of(bytes);
                self.keep(bytes, digest);
                Some(Presented::hashed(bytes, digest))
            }
            None => None,
        }
    }

    /// The SHA-256 of a token.
    fn digest_of(&self, token: &[u8]) -> [u8; 32]
        ensures { result ≡ sha256 token.now }
    {
        if are_same(self.token.as_slice(), token) {
            self.digest
        } else {
            Sha256::digest(token)
        }
    }

    /// From now on this token is kept beside its SHA-256, where it is short.
    fn keep(&mut self, token: &[u8], digest: [u8; 32])
        requires { digest ≡ sha256 token.now }
    {
        if self.digest == digest {
            return;
        }
        let mut short = ArrayVec::new();
        if short.try_extend_from_slice(token).is_ok() {
            *self = LastToken {
                token: short,
                digest,
            };
        }
    }
}

/// Whether two texts are the same. Where they are of one length each byte is compared, wherever they first differ.
fn are_same(left: &[u8], right: &[u8]) -> bool
    ensures same { result ≡ true → left.now ≡ right.now }
    ensures only { left.now ≡ right.now → result ≡ true }
{
    if left.len() != right.len() {
        return false;
    }
    let mut same = true;
    for at in 0..left.len() {
        same &= left[at] == right[at];
    }
    same
}
