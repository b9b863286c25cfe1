ghost use Rattle.std.specs.Prelude.{◌≡◌, ℕ, List, [], reverse, ◌∷◌, ◌++◌, length, map, All, codes, MatchOption, None, Some};
ghost use Rattle.std.specs.Option.{option_copied};
ghost use Rattle.httparse.specs.Spans.{IsHeaderWithin, header_bytes};
ghost use Rattle.af_http.specs.Fields.{values_named, is_absent, is_only, IsNamed, bearer, lists, same_text, skip_spaces};
ghost use Rattle.httparse.specs.Grammar.{trim_ows, skip_ows};

use httparse::is_space_or_tab;
use httparse::spans::HeaderSpan;
use memchr::memchr;

/// The values of the fields of one name.
#[derive(Clone, Copy)]
pub enum Named<'b> {
    Absent,
    Only(&'b [u8]),
    Several,
}

impl<'b> Named<'b> {
    pub fn is_absent(self) -> bool
        ensures { (values : List (List ℕ)) → IsNamed values self.entry → result ≡ is_absent values }
    {
        matches!(self, Named::Absent)
    }

    pub fn is_only(self) -> bool
        ensures { (values : List (List ℕ)) → IsNamed values self.entry → result ≡ is_only values }
    {
        matches!(self, Named::Only(_))
    }

    /// One value more.
    fn and(self, value: &'b [u8]) -> Named<'b>
        ensures { (before : List (List ℕ)) → IsNamed before self.entry → IsNamed (before ++ value.now ∷ []) result }
    {
        match self {
            Named::Absent => Named::Only(value),
            _ => Named::Several,
        }
    }
}

/// Whether two texts differ in the case of ASCII letters at most.
pub fn same_text(a: &[u8], b: &[u8]) -> bool
    ensures { result ≡ same_text a.now b.now }
{
    a.eq_ignore_ascii_case(b)
}

/// The values of the fields of this name, in any case.
pub fn value_of<'b>(buf: &'b [u8], headers: &[HeaderSpan], name: &[u8]) -> Named<'b>
    requires { All (IsHeaderWithin (length buf.now)) headers.now }
    ensures { IsNamed (values_named name.now (map (header_bytes buf.now) headers.now)) result }
{
    let mut found = Named::Absent;
    for header in headers {
        if same_text(header.name.of(buf), name) {
            found = found.and(header.value.of(buf));
        }
    }
    found
}

/// The token of `Bearer` and spaces.
pub fn bearer(value: &[u8]) -> Option<&[u8]>
    ensures { option_copied result ≡ bearer value.now }
{
    if value.len() < 7 {
        return None;
    }
    let (scheme, rest) = value.split_at(6);
    if !same_text(scheme, b"bearer") || rest[0] != b' ' {
        return None;
    }
    Some(skip_spaces(rest))
}

/// What follows the spaces at the front.
fn skip_spaces(text: &[u8]) -> &[u8]
    ensures { result.now ≡ skip_spaces text.now }
{
    let mut rest = text;
    while let Some((first, after)) = rest.split_first() {
        if *first != b' ' {
            break;
        }
        rest = after;
    }
    rest
}

/// The text from its first byte on that is no space or tab.
fn trim_start(text: &[u8]) -> &[u8]
    ensures { result.now ≡ skip_ows text.now }
{
    let mut rest = text;
    while let [first, after @ ..] = rest
        && is_space_or_tab(*first)
    {
        rest = after;
    }
    rest
}

/// The text up to its last byte that is no space or tab.
fn trim_end(text: &[u8]) -> &[u8]
    ensures { result.now ≡ reverse (skip_ows (reverse text.now)) }
{
    let mut rest = text;
    while let [before @ .., last] = rest
        && is_space_or_tab(*last)
    {
        rest = before;
    }
    rest
}

/// The text without spaces and tabs at its ends.
#[tactic(auto, unfolding(httparse::specs::Grammar::trim_ows))]
fn trim(text: &[u8]) -> &[u8]
    ensures { result.now ≡ trim_ows text.now }
{
    trim_end(trim_start(text))
}

/// Whether a list of options, parted by commas, has this one.
pub fn lists(value: &[u8], option: &[u8]) -> bool
    ensures { result ≡ lists option.now value.now }
{
    let mut rest = value;
    let mut found = false;
    while let Some(comma) = memchr(b',', rest) {
        let (part, after) = rest.split_at(comma);
        found |= same_text(trim(part), option);
        let (_, later) = after.split_at(1);
        rest = later;
    }
    found || same_text(trim(rest), option)
}
