// The numbers of JSON: integers of 64 bits, and floats.
ghost use Rattle.std.specs.Prelude.{◌≡◌, ◌==◌, ◌<◌, length, slice_index, option_map, false, true, IsTrue};
ghost use Rattle.serde_json.specs.Find.{as_i64, as_u64};
ghost use Rattle.serde_json.specs.Read.{float_of, number_from, number_of};
ghost use Rattle.af_base.specs.JsonValue.{number_view};

use fast_float::Numeral;

/// A number of a JSON text. An integer that does not fit 64 bits is a float, and so is `-0`.
#[derive(Clone, Copy, Drop)]
pub enum Numeric {
    Unsigned(u64),
    Negative(i64),
    Float(f64),
}

impl Numeric {
    /// The number that a numeral of JSON writes; none where no finite float is near.
    pub(super) fn read(text: &str) -> Option<Numeric>
        ensures { option_map number_view result ≡ number_of text.now }
    {
        let bytes = text.as_bytes();
        if has_minus(bytes) {
            Numeric::negative(&Numeral::scan(&bytes[1..]))
        } else {
            Numeric::unsigned(&Numeral::scan(bytes))
        }
    }

    fn unsigned(numeral: &Numeral<'_>) -> Option<Numeric>
        ensures { option_map number_view result ≡ number_from false numeral.now }
    {
        match numeral.to_u64() {
            Some(n) => Some(Numeric::Unsigned(n)),
            None => Numeric::nearest(false, numeral),
        }
    }

    fn negative(numeral: &Numeral<'_>) -> Option<Numeric>
        ensures { option_map number_view result ≡ number_from true numeral.now }
    {
        match numeral.to_i64(true) {
            Some(n) if n < 0 => Some(Numeric::Negative(n)),
            _ => Numeric::nearest(true, numeral),
        }
    }

    fn nearest(negative: bool, numeral: &Numeral<'_>) -> Option<Numeric>
        ensures { option_map number_view result ≡ float_of negative numeral.now }
    {
        let nearest = numeral.to_float::<f64>(negative);
        if nearest.is_finite() {
            Some(Numeric::Float(nearest))
        } else {
            None
        }
    }

    /// The integer of 64 bits that the number is, where it is none below zero.
    pub fn as_u64(self) -> Option<u64>
        ensures { result ≡ as_u64 (number_view self) }
    {
        match self {
            Numeric::Unsigned(n) => Some(n),
            _ => None,
        }
    }

    /// The integer of 64 bits with a sign that the number is.
    pub fn as_i64(self) -> Option<i64>
        ensures { result ≡ as_i64 (number_view self) }
    {
        match self {
            Numeric::Unsigned(n) if n <= i64::MAX as u64 => Some(n as i64),
            Numeric::Negative(n) => Some(n),
            _ => None,
        }
    }
}

fn has_minus(bytes: &[u8]) -> bool
    ensures value { result ≡ (slice_index bytes.now 0 == 45) }
    ensures within { IsTrue result → 0 < length bytes.now }
{
    !bytes.is_empty() && bytes[0] == b'-'
}
