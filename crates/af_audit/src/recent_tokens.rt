ghost use Rattle.std.specs.Prelude.{◌≡◌};
ghost use Rattle.std.specs.Option.{option_copied};

use crate::last_token::LastToken;
use af_policy::Presented;
use std::alloc::{AllocError, Global};

/// How many tokens are kept at most.
const PLACES: usize = 4096;

/// 2^32 divided by the golden ratio, as an odd number.
const GOLDEN: u32 = 0x9E37_79B1;

/// Tokens that came lately, each beside its SHA-256, so that one that comes again is not hashed again. Connections of a proxy carry tokens of
/// many users. A token has one place, and another one that has the same place takes it over. It changes no answer. Without memory for the
/// places, each token is hashed.
pub struct RecentTokens {
    places: Vec<Option<LastToken>>,
}

impl Drop for RecentTokens {
    fn drop(self) {
        let RecentTokens { places: _ } = self;
    }
}

impl RecentTokens {
    /// No token came yet. It takes no memory before the first one comes.
    pub fn new(alloc: Global) -> RecentTokens {
        RecentTokens {
            places: Vec::new(alloc),
        }
    }

    /// The token that came, if one came. It is kept from now on, unless it is too long.
    pub fn present<'a>(&mut self, token: Option<&'a [u8]>) -> Option<Presented<'a>>
        ensures { result ≡ option_copied token.entry }
    {
        match token {
            Some(bytes) => self.present_at(place_of(bytes), token),
            None => None,
        }
    }

    /// The token that came, which has this place.
    fn present_at<'a>(&mut self, place: usize, token: Option<&'a [u8]>) -> Option<Presented<'a>>
        ensures { result ≡ option_copied token.entry }
    {
        if self.places.is_empty() {
            let _ = self.make_places();
        }
        match self.places.get_mut(place) {
            Some(kept) => present_by(kept, token),
            None => Presented::of(token),
        }
    }

    /// Makes all places, each without a token.
    fn make_places(&mut self) -> Result<(), AllocError> {
        self.places.reserve(PLACES)?;
        for _ in 0..PLACES {
            self.places.push(None)?;
        }
        Ok(())
    }
}

/// The token that came, if one came. It is kept in this place from now on.
fn present_by<'a>(kept: &mut Option<LastToken>, token: Option<&'a [u8]>) -> Option<Presented<'a>>
    ensures { result ≡ option_copied token.entry }
{
    match kept {
        Some(last) => last.present(token),
        None => {
            let mut last = LastToken::new();
            let presented = last.present(token);
            *kept = Some(last);
            presented
        }
    }
}

/// The place of a token, by its last bytes. Tokens that are alike, as numbered ones are, are spread over the places: the upper bits of the
/// product depend on all bits of the sum.
fn place_of(token: &[u8]) -> usize {
    let mut sum: u32 = 0;
    for byte in token.iter().rev().take(8) {
        sum = sum.wrapping_mul(31).wrapping_add(u32::from(*byte));
    }
    (sum.wrapping_mul(GOLDEN) >> 20) as usize % PLACES
}
