// The texts of a path's parts.
ghost use Rattle.std.specs.Prelude.{◌≡◌, ◌<◌, ◌≤◌, ◌++◌, ◌∷◌, [], List, ℕ, IfOk, Some, false, length, map, string_bytes, true, vec_capacity, string_capacity};
ghost use Rattle.std.specs.List.{All};
ghost use Rattle.percent_encoding.specs.Percent.{percent_decode};
ghost use Rattle.af_http.specs.Limits.{name_limit, part_limit};
ghost use Rattle.af_http.specs.Parts.{IsUnfitPart};
ghost use Rattle.af_http.specs.Routes.{decoded};

use memchr::memchr;
use percent_encoding::percent_decode;
use std::alloc::{AllocError, Global};
use std::marker::Model;

/// The most parts of a path of the table.
const PART_LIMIT: usize = 3;

/// The most bytes of a name, of any kind.
const NAME_LIMIT: usize = 250;

/// The texts of the parts of a path, without their percent-encoding. A contract sees them.
///
/// They have their memory from the start: so none is wanted to tell that a part is no name.
#[derive(Drop)]
pub struct Parts {
    texts: Vec<String>,
    /// How many of them are those of the path. The others are there for their memory.
    count: usize,
    /// A part is decoded here.
    bytes: Vec<u8>,
}

impl Model for Parts {
    ghost use Rattle.std.specs.Prelude.{◌≡◌, ℕ, List, ◌≤◌, length, map, take, string_bytes, string_capacity, vec_capacity};
    ghost use Rattle.std.specs.List.{All};
    ghost use Rattle.af_http.specs.Limits.{name_limit, part_limit};

    ghost Value = { List (List ℕ) };

    ghost view = { λ p. map (λ text. string_bytes text) (take p.count p.texts.items) };

    ghost invariant = { λ p. (p.count ≤ part_limit) × (length p.texts.items ≡ part_limit)
        × All (λ text. name_limit ≤ string_capacity text) p.texts.items × (name_limit ≤ vec_capacity p.bytes) };
}

impl Parts {
    /// There are none.
    pub fn new(alloc: Global) -> Result<Parts, AllocError>
        ensures { IfOk result (λ p. p ≡ []) }
    {
        let texts = room(alloc)?;
        let bytes = Vec::with_capacity(alloc, NAME_LIMIT)?;
        Ok(Parts {
            texts,
            count: 0,
            bytes,
        })
    }

    /// The texts.
    pub fn as_slice(&self) -> &[String]
        ensures { map (λ part. string_bytes part) result.now ≡ self.now }
    {
        let (texts, _) = self.texts.as_slice().split_at(self.count);
        texts
    }

    /// There are none any more.
    pub fn clear(&mut self)
        ensures { self.new ≡ [] }
    {
        self.count = 0;
    }

    /// Puts the text of a part behind those that are there, and tells whether it has one that is not too long for a name. It
    /// takes no memory.
    pub fn push(&mut self, part: &[u8]) -> bool
        requires { length self.old < part_limit }
        ensures text { result ≡ true → (text : List ℕ) × (decoded part.now ≡ Some text) × (self.new ≡ self.old ++ text ∷ []) }
        ensures unfit { result ≡ false → IsUnfitPart (decoded part.now) }
    {
        if !decode(&mut self.bytes, part) {
            return false;
        }
        match str::from_utf8(self.bytes.as_slice()) {
            Ok(text) => {
                put(&mut self.texts[self.count], text);
                self.count += 1;
                true
            }
            Err(_) => false,
        }
    }
}

/// As many texts as a path may have parts, each with room for a name.
fn room(alloc: Global) -> Result<Vec<String>, AllocError>
    ensures { IfOk result (λ texts. (length texts.items ≡ part_limit) × All (λ text. name_limit ≤ string_capacity text) texts.items) }
{
    let texts = [
        String::with_capacity(alloc, NAME_LIMIT)?,
        String::with_capacity(alloc, NAME_LIMIT)?,
        String::with_capacity(alloc, NAME_LIMIT)?,
    ];
    let texts = Vec::from_array(alloc, texts)?;
    Ok(texts)
}

/// Puts a part without its percent-encoding in place of what is there, and tells whether it is not too long for a name.
fn decode(bytes: &mut Vec<u8>, part: &[u8]) -> bool
    requires { name_limit ≤ vec_capacity bytes.old }
    ensures room { name_limit ≤ vec_capacity bytes.new }
    ensures text { result ≡ true → bytes.new.items ≡ percent_decode part.now }
    ensures short { result ≡ true → length bytes.new.items ≤ name_limit }
    ensures long { result ≡ false → name_limit < length (percent_decode part.now) }
{
    bytes.clear();
    match memchr(b'%', part) {
        Some(_) => decode_escapes(bytes, part),
        None => copy(bytes, part),
    }
}

/// Puts these bytes where nothing is, and tells whether they are not too long for a name.
fn copy(bytes: &mut Vec<u8>, part: &[u8]) -> bool
    requires none { bytes.old.items ≡ [] }
    requires room { name_limit ≤ vec_capacity bytes.old }
    ensures room { name_limit ≤ vec_capacity bytes.new }
    ensures text { result ≡ true → bytes.new.items ≡ part.now }
    ensures short { result ≡ true → length bytes.new.items ≤ name_limit }
    ensures long { result ≡ false → name_limit < length part.now }
{
    if part.len() > NAME_LIMIT {
        return false;
    }
    let added = bytes.extend_from_slice(part);
    prove!(added.is_ok());
    true
}

/// Puts a part without its percent-encoding where nothing is, and tells whether it is not too long for a name.
fn decode_escapes(bytes: &mut Vec<u8>, part: &[u8]) -> bool
    requires none { bytes.old.items ≡ [] }
    requires room { name_limit ≤ vec_capacity bytes.old }
    ensures room { name_limit ≤ vec_capacity bytes.new }
    ensures text { result ≡ true → bytes.new.items ≡ percent_decode part.now }
    ensures short { result ≡ true → length bytes.new.items ≤ name_limit }
    ensures long { result ≡ false → name_limit < length (percent_decode part.now) }
{
    for byte in percent_decode(part) {
        if !push_byte(bytes, byte) {
            return false;
        }
    }
    true
}

/// Puts a byte behind those of a name, unless these are as many as a name may have, and tells whether it did.
fn push_byte(bytes: &mut Vec<u8>, byte: u8) -> bool
    requires room { name_limit ≤ vec_capacity bytes.old }
    requires short { length bytes.old.items ≤ name_limit }
    ensures room { name_limit ≤ vec_capacity bytes.new }
    ensures text { result ≡ true → bytes.new.items ≡ bytes.old.items ++ byte ∷ [] }
    ensures short { result ≡ true → length bytes.new.items ≤ name_limit }
    ensures full { result ≡ false → length bytes.old.items ≡ name_limit }
{
    if bytes.len() == NAME_LIMIT {
        return false;
    }
    let added = bytes.push(byte);
    prove!(added.is_ok());
    true
}

/// Puts a text in place of another, which has room for it.
fn put(place: &mut String, text: &str)
    requires { length text.now ≤ string_capacity place.old }
    ensures text { string_bytes place.new ≡ text.now }
    ensures room { string_capacity place.old ≤ string_capacity place.new }
{
    place.clear();
    let added = place.push_str(text);
    prove!(added.is_ok());
}
