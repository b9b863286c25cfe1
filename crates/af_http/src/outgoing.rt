ghost use Rattle.std.specs.Prelude.{◌≡◌, ℕ, ◌+◌, ◌≤◌, ◌<◌, List, [], false, true, ◌++◌, length, IfOk};
ghost use Rattle.af_http.specs.Limits.{outgoing_room};
ghost use Rattle.af_http.specs.Sending.{Puts};

use crate::stream::Sink;
use crate::writing::write_all;
use std::alloc::{AllocError, Global};
use std::marker::Model;

/// How many bytes are held for the writer at most.
pub const OUTGOING_ROOM: usize = 65_536;

/// The bytes that wait for the writer, so that small texts leave together, and whether a write has failed: after that
/// nothing more is held or written. A contract sees both.
///
/// They have their memory from the start.
pub struct Outgoing {
    bytes: Vec<u8>,
    failed: bool,
}

impl Drop for Outgoing {
    fn drop(self) {
        let Outgoing {
            bytes: _,
            failed: _,
        } = self;
    }
}

impl Model for Outgoing {
    ghost use Rattle.std.specs.Prelude.{ℕ, List, ◌≤◌, length, vec_capacity};
    ghost use Rattle.af_http.specs.Limits.{outgoing_room};
    ghost use Rattle.af_http.specs.Streams.{Waiting};

    ghost Value = { Waiting };

    ghost view = { λ o. record { bytes = o.bytes.items; failed = o.failed } };

    ghost invariant = { λ o. (outgoing_room ≤ vec_capacity o.bytes) × (length o.bytes.items ≤ outgoing_room) };
}

impl Outgoing {
    /// None waits.
    pub fn new(alloc: Global) -> Result<Outgoing, AllocError>
        ensures { IfOk result (λ o. (o.bytes ≡ []) × (o.failed ≡ false)) }
    {
        let bytes = Vec::with_capacity(alloc, OUTGOING_ROOM)?;
        Ok(Outgoing {
            bytes,
            failed: false,
        })
    }

    /// No byte waits any more, and no write has failed. The memory stays.
    pub fn clear(&mut self)
        ensures { (self.new.bytes ≡ []) × (self.new.failed ≡ false) }
    {
        self.bytes.clear();
        self.failed = false;
    }

    /// Whether a write has failed.
    #[inline(always)]
    pub fn has_failed(&self) -> bool
        ensures { result ≡ self.now.failed }
    {
        self.failed
    }

    /// How many bytes more find room.
    #[inline(always)]
    fn room(&self) -> usize
        ensures { result + length self.now.bytes ≡ outgoing_room }
    {
        OUTGOING_ROOM - self.bytes.len()
    }

    /// These bytes wait after those that do.
    #[inline(always)]
    fn hold(&mut self, bytes: &[u8])
        requires { length self.old.bytes + length bytes.now ≤ outgoing_room }
        ensures held { self.new.bytes ≡ self.old.bytes ++ bytes.now }
        ensures same { self.new.failed ≡ self.old.failed }
    {
        let added = self.bytes.extend_from_slice(bytes);
        prove!(added.is_ok());
    }

    /// Writes these bytes, where none wait or a write has failed.
    fn write<W: Sink>(&mut self, writer: &mut W, bytes: &[u8])
        requires { self.old.failed ≡ false → self.old.bytes ≡ [] }
        ensures { Puts 0
            (record { sink = W.taken writer.old; waiting = self.old })
            (record { sink = W.taken writer.new; waiting = self.new }) bytes.now }
    {
        if !self.failed {
            self.failed = write_all(writer, bytes).is_err();
        }
    }

    /// Writes all that waits, unless a write has failed.
    pub fn flush<W: Sink>(&mut self, writer: &mut W)
        ensures sent { Puts 0
            (record { sink = W.taken writer.old; waiting = self.old })
            (record { sink = W.taken writer.new; waiting = self.new }) [] }
        ensures none_waits { self.new.failed ≡ false → self.new.bytes ≡ [] }
        ensures idle { self.old.failed ≡ false → self.old.bytes ≡ [] → self.new.failed ≡ false }
    {
        if !self.failed {
            match write_all(writer, self.bytes.as_slice()) {
                Ok(()) => self.bytes.clear(),
                Err(_) => self.failed = true,
            }
        }
    }

    /// Writes all that waits where no byte more finds room, unless a write has failed.
    pub fn make_room<W: Sink>(&mut self, writer: &mut W)
        ensures sent { Puts 0
            (record { sink = W.taken writer.old; waiting = self.old })
            (record { sink = W.taken writer.new; waiting = self.new }) [] }
        ensures room { self.new.failed ≡ false → length self.new.bytes < outgoing_room }
    {
        if self.bytes.len() == OUTGOING_ROOM {
            self.flush(writer);
        }
    }

    /// Puts bytes after those that wait, and writes these where not all find room together. So at a failure a first byte
    /// has been given to the writer, if it found room.
    #[inline(always)]
    pub fn put<W: Sink>(&mut self, writer: &mut W, bytes: &[u8])
        ensures all { Puts 0
            (record { sink = W.taken writer.old; waiting = self.old })
            (record { sink = W.taken writer.new; waiting = self.new }) bytes.now }
        ensures first { 0 < length bytes.now → length self.old.bytes < outgoing_room → Puts 1
            (record { sink = W.taken writer.old; waiting = self.old })
            (record { sink = W.taken writer.new; waiting = self.new }) bytes.now }
    {
        if self.has_failed() {
            return;
        }
        if bytes.len() <= self.room() {
            self.hold(bytes);
            return;
        }
        self.put_over(writer, bytes);
    }

    /// Puts bytes of which not all find room behind those that wait: as many wait as do, all are written, and then the others
    /// wait.
    #[cold]
    #[inline(never)]
    fn put_over<W: Sink>(&mut self, writer: &mut W, bytes: &[u8])
        requires sound { self.old.failed ≡ false }
        requires over { outgoing_room ≤ length self.old.bytes + length bytes.now }
        ensures all { Puts 0
            (record { sink = W.taken writer.old; waiting = self.old })
            (record { sink = W.taken writer.new; waiting = self.new }) bytes.now }
        ensures first { length self.old.bytes < outgoing_room → Puts 1
            (record { sink = W.taken writer.old; waiting = self.old })
            (record { sink = W.taken writer.new; waiting = self.new }) bytes.now }
    {
        let (front, rest) = bytes.split_at(self.room());
        self.hold(front);
        self.flush(writer);
        self.put_first(writer, rest);
    }

    /// Puts the first bytes of an answer, one of which finds room.
    #[inline(always)]
    pub fn begin<W: Sink>(&mut self, writer: &mut W, bytes: &[u8])
        requires some { 0 < length bytes.now }
        requires room { self.old.failed ≡ false → length self.old.bytes < outgoing_room }
        ensures { Puts 1
            (record { sink = W.taken writer.old; waiting = self.old })
            (record { sink = W.taken writer.new; waiting = self.new }) bytes.now }
    {
        self.put(writer, bytes);
    }

    /// Puts bytes where none wait, or a write has failed.
    fn put_first<W: Sink>(&mut self, writer: &mut W, bytes: &[u8])
        requires { self.old.failed ≡ false → self.old.bytes ≡ [] }
        ensures { Puts 0
            (record { sink = W.taken writer.old; waiting = self.old })
            (record { sink = W.taken writer.new; waiting = self.new }) bytes.now }
    {
        if self.failed || bytes.len() > OUTGOING_ROOM {
            self.write(writer, bytes);
        } else {
            self.hold(bytes);
        }
    }
}
