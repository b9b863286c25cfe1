// Names and values of a query, decoded byte by byte, so that reading takes no memory.
ghost use Rattle.std.specs.Prelude.{◌≡◌, ◌==◌, bytes_eq};
ghost use Rattle.std.specs.List.{list_any};
ghost use Rattle.form_urlencoded.specs.Form.{decode};
ghost use Rattle.percent_encoding.specs.Percent.{percent_decode};
ghost use Rattle.af_listing.specs.Windows.{name_of, number_in};

use af_policy::Parameter;
use percent_encoding::percent_decode;

/// Whether an encoded name is that of a parameter. No parameter's name has a space, so none is spelled with a `+`.
pub(crate) fn is_named(name: &[u8], parameter: Parameter) -> bool
    ensures { result ≡ bytes_eq (decode name.now) (name_of parameter) }
{
    !has_plus(name) && decodes_to(name, text_of(parameter))
}

/// The number that an encoded text writes, if it is decimal digits and one at least; past 64 bits the last number of these.
pub(crate) fn number_in(text: &[u8]) -> Option<usize>
    ensures { result ≡ number_in (decode text.now) }
{
    if text.is_empty() || has_plus(text) {
        return None;
    }
    let mut number: usize = 0;
    for byte in percent_decode(text) {
        if !byte.is_ascii_digit() {
            return None;
        }
        number = number
            .saturating_mul(10)
            .saturating_add(usize::from(byte - b'0'));
    }
    Some(number)
}

fn has_plus(text: &[u8]) -> bool
    ensures { result ≡ list_any (λ byte. byte == 43) text.now }
{
    text.iter().any(|byte| *byte == b'+')
}

fn decodes_to(text: &[u8], name: &[u8]) -> bool
    ensures { result ≡ bytes_eq (percent_decode text.now) name.now }
{
    let mut left = name;
    for byte in percent_decode(text) {
        let Some((first, rest)) = left.split_first() else {
            return false;
        };
        if *first != byte {
            return false;
        }
        left = rest;
    }
    left.is_empty()
}

fn text_of(parameter: Parameter) -> &'static [u8]
    ensures { result.now ≡ name_of parameter }
{
    match parameter {
        Parameter::Limit => b"limit",
        Parameter::Offset => b"offset",
    }
}
