ghost use Rattle.std.specs.Prelude.{map, All, ◌≡◌, ℕ, List, length, IfOk, IfErr, Ok};
ghost use Rattle.std.specs.Option.{option_copied};
ghost use Rattle.httparse.specs.Spans.{IsHeaderWithin, header_bytes};
ghost use Rattle.httparse.specs.Grammar.{RequestHead};
ghost use Rattle.af_http.specs.Fields.{IsNamed};
ghost use Rattle.af_http.specs.Requests.{body_length, has_host, length_of, length_or, length_in, number_in, token_of, asks_to_close, is_head, asked_by, seen};
ghost use Rattle.af_http.specs.Lengths.{cap, capped};
ghost use Rattle.af_http.specs.Reading.{Parses, IsUnread};

use crate::field_spans::FieldSpans;
use crate::fields::{Named, bearer, lists, same_text, value_of};
use crate::refusal::Refusal;
use crate::request::Request;
use httparse::Status;
use httparse::spans::{HeaderSpan, parse_request};

/// The most bytes of a body.
pub const BODY_LIMIT: usize = 65_536;

/// The request that the head asks for, or why it is refused. Where its fields lie is found anew.
pub fn read_head<'b>(head: &'b [u8], fields: &mut FieldSpans) -> Result<Request<'b>, Refusal>
    ensures found { IfOk result (λ r. (h : RequestHead) × Parses head.now h × (body_length h ≡ Ok r.length)
        × ((body : List ℕ) → seen r body ≡ asked_by h body)) }
    ensures bad { IfErr result (λ refusal. IsUnread head.now refusal) }
{
    let Ok(Status::Complete(spans)) = parse_request(head, &mut fields.spans) else {
        return Err(Refusal::BadHead(false));
    };
    if spans.len != head.len() {
        return Err(Refusal::BadHead(false));
    }
    let method = spans.method.of(head);
    let fields = &fields.spans[..spans.headers];
    match length_of(head, is_head(method), spans.version, fields) {
        Ok(length) => Ok(Request {
            method,
            target: spans.path.of(head),
            token: token_of(head, fields),
            closes: asks_to_close(head, spans.version, fields),
            length,
        }),
        Err(refusal) => Err(refusal),
    }
}

/// Whether the answer's body is left out.
pub fn is_head(method: &[u8]) -> bool
    ensures { result ≡ is_head method.now }
{
    method == b"HEAD".as_slice()
}

/// The length of the body, or why the request is refused.
fn length_of(
    head: &[u8],
    head_only: bool,
    minor: u8,
    fields: &[HeaderSpan],
) -> Result<usize, Refusal>
    requires { All (IsHeaderWithin (length head.now)) fields.now }
    ensures { result ≡ length_of head_only minor (map (header_bytes head.now) fields.now) }
{
    if !has_host(head, minor, fields) {
        return Err(Refusal::BadHead(head_only));
    }
    let length = length_in(value_of(head, fields, b"content-length"));
    let plain = value_of(head, fields, b"transfer-encoding").is_absent();
    length_or(head_only, length, plain)
}

/// Whether the version's rule on `Host` is kept.
fn has_host(head: &[u8], minor: u8, fields: &[HeaderSpan]) -> bool
    requires { All (IsHeaderWithin (length head.now)) fields.now }
    ensures { result ≡ has_host minor (map (header_bytes head.now) fields.now) }
{
    minor == 0 || value_of(head, fields, b"host").is_only()
}

/// The length that the values of `Content-Length` say, or one more than the limit where it is longer.
fn length_in(values: Named<'_>) -> Option<usize>
    ensures { (all : List (List ℕ)) → IsNamed all values.entry → result ≡ capped (length_in all) }
{
    match values {
        Named::Absent => Some(0),
        Named::Only(value) => number_in(value),
        Named::Several => None,
    }
}

/// The length of a body, which is right up to the limit, or why the request is refused.
fn length_or(head_only: bool, length: Option<usize>, plain: bool) -> Result<usize, Refusal>
    ensures { result ≡ length_or head_only length plain }
{
    match length {
        None => Err(Refusal::BadHead(head_only)),
        Some(_) if !plain => Err(Refusal::Coding(head_only)),
        Some(length) if length > BODY_LIMIT => Err(Refusal::BodyTooLarge(head_only)),
        Some(length) => Ok(length),
    }
}

/// The number that a text of decimal digits writes, or one more than the limit where it is greater.
fn number_in(text: &[u8]) -> Option<usize>
    ensures { result ≡ capped (number_in text.now) }
{
    if text.is_empty() {
        return None;
    }
    let mut number = 0;
    for byte in text {
        if !byte.is_ascii_digit() {
            return None;
        }
        number = cap(number * 10 + usize::from(*byte - b'0'));
    }
    Some(number)
}

/// The number, or one more than the limit where it is greater.
fn cap(number: usize) -> usize
    ensures { result ≡ cap number }
{
    if number > BODY_LIMIT {
        return BODY_LIMIT + 1;
    }
    number
}

/// The token of the only `Authorization`.
fn token_of<'b>(head: &'b [u8], fields: &[HeaderSpan]) -> Option<&'b [u8]>
    requires { All (IsHeaderWithin (length head.now)) fields.now }
    ensures { option_copied result ≡ token_of (map (header_bytes head.now) fields.now) }
{
    match value_of(head, fields, b"authorization") {
        Named::Only(value) => bearer(value),
        _ => None,
    }
}

/// Whether the connection closes after this request.
fn asks_to_close(head: &[u8], minor: u8, fields: &[HeaderSpan]) -> bool
    requires { All (IsHeaderWithin (length head.now)) fields.now }
    ensures { result ≡ asks_to_close minor (map (header_bytes head.now) fields.now) }
{
    if minor == 0 {
        return true;
    }
    for field in fields {
        if same_text(field.name.of(head), b"connection") && lists(field.value.of(head), b"close") {
            return true;
        }
    }
    false
}
