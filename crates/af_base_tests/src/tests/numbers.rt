use super::asserts::{are_refused, holds};
use af_base::{Json, json_in};
use json::Scratch;
use std::alloc::Global;
use std::test::Fail;

/// A JSON text, and the number that it is without and with a sign, if it is one.
const NUMBERS: &[(&str, Option<u64>, Option<i64>)] = &[
    ("0", Some(0), Some(0)),
    ("-0", None, None),
    ("-1", None, Some(-1)),
    (
        "9223372036854775807",
        Some(9_223_372_036_854_775_807),
        Some(i64::MAX),
    ),
    ("9223372036854775808", Some(9_223_372_036_854_775_808), None),
    ("18446744073709551615", Some(u64::MAX), None),
    ("18446744073709551616", None, None),
    ("-9223372036854775808", None, Some(i64::MIN)),
    ("-9223372036854775809", None, None),
    ("1.0", None, None),
    ("1e2", None, None),
    ("1.7976931348623157e308", None, None),
    ("true", None, None),
    ("\"1\"", None, None),
];

/// Numbers that no float is near.
const PAST_FLOATS: &[&str] = &[
    "1e400",
    "-1e400",
    "1.7976931348623159e308",
    "[1e309]",
    "{\"a\":1e999}",
];

fn is_unsigned(value: &Json<'_>, wanted: Option<u64>) -> bool {
    value.as_u64() == wanted && value.is_u64() == wanted.is_some()
}

fn is_signed(value: &Json<'_>, wanted: Option<i64>) -> bool {
    value.as_i64() == wanted && value.is_i64() == wanted.is_some()
}

/// Whether a JSON text is this number without, and this with a sign.
fn is_number(
    alloc: Global,
    text: &str,
    unsigned: Option<u64>,
    signed: Option<i64>,
) -> Result<(bool, bool), Fail> {
    let mut scratch = Scratch::new(alloc);
    match json_in(alloc, text.as_bytes(), &mut scratch)? {
        Some(value) => Ok((is_unsigned(&value, unsigned), is_signed(&value, signed))),
        None => Ok((false, false)),
    }
}

#[test]
fn numbers_and_their_range(rt: HostRuntime) -> Result<(), Fail> {
    for (text, unsigned, signed) in NUMBERS {
        let (is_unsigned, is_signed) = is_number(rt.alloc(), text, *unsigned, *signed)?;
        holds(&rt, is_unsigned, text);
        holds(&rt, is_signed, text);
    }
    are_refused(&rt, rt.alloc(), PAST_FLOATS)
}
