ghost use Rattle.std.specs.Prelude.{◌≡◌, ◌≤◌, bytes_eq};
ghost use Rattle.std.specs.List.{find};
ghost use Rattle.std.specs.Option.{option_map};
ghost use Rattle.form_urlencoded.specs.Form.{decode, pair_text, raw_pairs};
ghost use Rattle.af_listing.specs.Windows.{asked_of, most_rows, name_of, window_of};

use crate::decoding::{is_named, number_in};
use af_policy::Parameter;
use form_urlencoded::raw_pairs;
use std::marker::Model;

/// The most rows that a page has, also where no limit is asked for.
const MOST_ROWS: usize = 100;

/// Which rows of a listing are asked for: `offset` rows are passed over, and then at most `limit` are told, never more than
/// 100. Contracts see the two numbers.
#[derive(Clone, Copy, Debug, PartialEq, Eq)]
pub struct Window {
    limit: usize,
    offset: usize,
}

impl Model for Window {
    ghost use Rattle.std.specs.Prelude.{◌≤◌};
    ghost use Rattle.af_listing.specs.Windows.{Cut, most_rows};

    ghost Value = { Cut };

    ghost view = { λ window. record { limit = window.limit; offset = window.offset } };

    ghost invariant = { λ window. window.limit ≤ most_rows };

    ghost inverse = { λ cut. record { limit = cut.limit; offset = cut.offset } };
}

impl Window {
    /// What a query says. A parameter that stands twice is read once, the first time. `Err` names the first parameter that is no
    /// number, `limit` before `offset`. A limit above 100 is taken as 100, and a number past 64 bits as the last of these.
    pub fn read(query: &[u8]) -> Result<Window, Parameter>
        ensures { result ≡ window_of query.now }
    {
        let limit = asked(query, Parameter::Limit, MOST_ROWS)?;
        let offset = asked(query, Parameter::Offset, 0)?;
        Ok(Window {
            limit: limit.min(MOST_ROWS),
            offset,
        })
    }

    /// The first rows, as many as a page has.
    pub fn first() -> Window
        ensures { result ≡ record { limit = most_rows; offset = 0 } }
    {
        Window {
            limit: MOST_ROWS,
            offset: 0,
        }
    }

    /// How many rows are told at most.
    pub fn limit(&self) -> usize
        ensures value { result ≡ self.now.limit }
        ensures bound { result ≤ most_rows }
    {
        self.limit
    }

    /// How many rows are passed over.
    pub fn offset(&self) -> usize
        ensures { result ≡ self.now.offset }
    {
        self.offset
    }
}

/// The number of a parameter of a query, or the one that stands where it is absent.
fn asked(query: &[u8], parameter: Parameter, absent: usize) -> Result<usize, Parameter>
    ensures { result ≡ asked_of parameter absent query.now }
{
    match found(query, parameter) {
        Some(pair) => number_in(pair.1).ok_or(parameter),
        None => Ok(absent),
    }
}

/// The first pair of a parameter's name, still encoded.
fn found(query: &[u8], parameter: Parameter) -> Option<(&[u8], &[u8])>
    ensures { option_map pair_text result ≡ find (λ pair. bytes_eq (decode pair.0) (name_of parameter)) (raw_pairs query.now) }
{
    raw_pairs(query).find(|pair| is_named(pair.0, parameter))
}
