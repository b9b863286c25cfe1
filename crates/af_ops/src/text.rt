ghost use Rattle.std.specs.Prelude.{◌≡◌, ◌+◌, ◌<◌, ◌≤◌, [], ◌∷◌, ◌++◌, take, cond, length, vec_len, vec_capacity, OnOk, IfOk};

use crate::instant_text::InstantText;
use crate::placing::{place, place_comma};
use af_names::Instant;
use std::alloc::{AllocError, Global};
use std::marker::Model;

/// Bytes that are made ready at once, at least.
const LEAST_AHEAD: usize = 128;

/// Bytes that are made ready at once at the beginning, at most.
const FIRST_AHEAD: usize = 1024;

/// Bytes that are made ready at once, at most.
const MOST_AHEAD: usize = 4 * 1024;

static ZEROS: [u8; 4096] = [0; 4096];

/// A text that grows at its end. Bytes after its end are made ready ahead, so that a member of an object takes one test of
/// room. Contracts see its bytes, and how many more it takes without a growth.
///
/// The last instant that was told stays at hand with its text, since rows that one tick or one call made tell the same.
#[derive(Drop)]
pub struct Text {
    bytes: Vec<u8>,
    len: usize,
    at_hand: Option<InstantText>,
}

impl Model for Text {
    ghost use Rattle.std.specs.Prelude.{◌-◌, ◌≤◌, length, take};
    ghost use Rattle.af_ops.specs.Texts.{Filling};

    ghost Value = { Filling };

    ghost view = { λ text. record { items = take text.len text.bytes.items; ready = length text.bytes.items - text.len } };

    ghost invariant = { λ text. text.len ≤ length text.bytes.items };
}

impl Text {
    /// An empty text with room for so many bytes. `AllocError` only where a growth was refused.
    pub fn with_room(alloc: Global, room: usize) -> Result<Text, AllocError>
        ensures items { IfOk result (λ text. text.items ≡ []) }
        ensures ready { IfOk result (λ text. room ≤ text.ready) }
    {
        let bytes = Vec::from_elem(alloc, 0, room)?;
        Ok(Text::over(bytes))
    }

    /// An empty text that has memory for so many bytes, of which the first are ready, all of few: to make many ready at once takes
    /// longer than to go on as the text grows. `AllocError` only where a growth was refused.
    pub(crate) fn with_memory(alloc: Global, room: usize) -> Result<Text, AllocError>
        ensures items { IfOk result (λ text. text.items ≡ []) }
        ensures ready { IfOk result (λ text. 128 ≤ text.ready) }
    {
        let room = room.max(LEAST_AHEAD);
        let mut bytes = Vec::with_capacity(alloc, room)?;
        fill_to(&mut bytes, room.min(FIRST_AHEAD));
        Ok(Text::over(bytes))
    }

    /// An empty text for which these bytes are ready.
    #[inline(always)]
    fn over(bytes: Vec<u8>) -> Text
        ensures items { result.items ≡ [] }
        ensures ready { result.ready ≡ length bytes.items }
    {
        Text {
            bytes,
            len: 0,
            at_hand: None,
        }
    }

    /// Its bytes.
    pub fn into_bytes(self) -> Vec<u8>
        ensures { result.items ≡ self.items }
    {
        let Text { mut bytes, len, .. } = self;
        bytes.truncate(len);
        bytes
    }

    /// The text of an instant: the one at hand where it is that instant's. None is at hand then.
    #[inline]
    pub(crate) fn text_of(&mut self, instant: Instant) -> InstantText
        ensures text { result ≡ instant }
        ensures same { self.new ≡ self.old }
    {
        match self.at_hand.take() {
            Some(text) if text.instant() == instant => text,
            _ => InstantText::of(instant),
        }
    }

    /// From now on this text is at hand.
    #[inline]
    pub(crate) fn keep_at_hand(&mut self, text: InstantText)
        ensures { self.new ≡ self.old }
    {
        self.at_hand = Some(text);
    }

    /// Room for so many more bytes. `AllocError` only where a growth was refused.
    #[inline(always)]
    pub(crate) fn reserve(&mut self, additional: usize) -> Result<(), AllocError>
        ensures items { self.new.items ≡ self.old.items }
        ensures ready { OnOk result (additional ≤ self.new.ready) }
    {
        if additional <= self.bytes.len() - self.len {
            return Ok(());
        }
        self.grow(additional)
    }

    #[cold]
    #[inline(never)]
    fn grow(&mut self, additional: usize) -> Result<(), AllocError>
        requires { self.old.ready < additional }
        ensures items { self.new.items ≡ self.old.items }
        ensures ready { OnOk result (additional ≤ self.new.ready) }
    {
        let filled = self.bytes.len();
        let missing = additional - (filled - self.len);
        self.bytes.reserve(missing)?;
        let ahead = missing.max(filled.clamp(LEAST_AHEAD, MOST_AHEAD));
        let room = self.bytes.capacity() - filled;
        fill_to(&mut self.bytes, filled + ahead.min(room));
        Ok(())
    }

    /// Appends a piece for which there is room.
    #[inline(always)]
    pub(crate) fn push(&mut self, piece: &[u8])
        requires { length piece.now ≤ self.old.ready }
        ensures items { self.new.items ≡ self.old.items ++ piece.now }
        ensures ready { self.new.ready + length piece.now ≡ self.old.ready }
    {
        let buf = self.bytes.as_mut_slice();
        self.len = place(buf, self.len, piece);
    }

    /// Appends a member with this name and these bytes as its value, for which there is room.
    #[inline(always)]
    pub(crate) fn push_member(&mut self, later: bool, name: &[u8], value: &[u8])
        requires { length name.now + length value.now + 4 ≤ self.old.ready }
        ensures items { self.new.items ≡ self.old.items ++ (cond later (44 ∷ []) [] ++ 34 ∷ (name.now ++ 34 ∷ 58 ∷ value.now)) }
        ensures ready { self.old.ready ≤ self.new.ready + (length name.now + length value.now + 4) }
    {
        let buf = self.bytes.as_mut_slice();
        let at = place_comma(buf, self.len, later);
        let at = place(buf, at, b"\"");
        let at = place(buf, at, name);
        let at = place(buf, at, b"\":");
        self.len = place(buf, at, value);
    }

    /// Appends a member with this name and a text of these bytes as its value, for which there is room.
    #[inline(always)]
    pub(crate) fn push_text_member(&mut self, later: bool, name: &[u8], value: &[u8])
        requires { length name.now + length value.now + 6 ≤ self.old.ready }
        ensures items { self.new.items ≡ self.old.items ++ (cond later (44 ∷ []) [] ++ 34 ∷ (name.now ++ 34 ∷ 58 ∷ 34 ∷ (value.now ++ 34 ∷ []))) }
        ensures ready { self.old.ready ≤ self.new.ready + (length name.now + length value.now + 6) }
    {
        let buf = self.bytes.as_mut_slice();
        let at = place_comma(buf, self.len, later);
        let at = place(buf, at, b"\"");
        let at = place(buf, at, name);
        let at = place(buf, at, b"\":\"");
        let at = place(buf, at, value);
        self.len = place(buf, at, b"\"");
    }
}

fn fill_to(bytes: &mut Vec<u8>, len: usize)
    requires { (vec_len bytes.old ≤ len) × (len ≤ vec_capacity bytes.old) }
    ensures front { take (vec_len bytes.old) bytes.new.items ≡ bytes.old.items }
    ensures len { vec_len bytes.new ≡ len }
{
    while bytes.len() < len {
        let step = (len - bytes.len()).min(ZEROS.len());
        if bytes.extend_from_slice(&ZEROS[..step]).is_err() {
            unreachable!();
        }
    }
}
