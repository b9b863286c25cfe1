ghost use Rattle.std.specs.Prelude.{◌≡◌, ◌+◌, ◌++◌, ◌∷◌, [], false, length, take};
ghost use Rattle.std.specs.Io.KnownBytes.{prepend_known};
ghost use Rattle.af_http.specs.Histories.{history_of};
ghost use Rattle.af_http.specs.Streams.{bytes_of, numbers_of, one_if, is_end, is_narrow};

use crate::incoming::READ_ROOM;
use crate::stream::{Failed, Sink, Source};
use http_server::Log;
use std::io::{Read, Write};

/// Any reader as a source, and any writer as a sink.
///
/// Beside it stands the history that contracts speak of: it takes no memory, and costs nothing at run time. Where std
/// says what a reader still holds, a read takes from that, and finds the end only where nothing is left; where std says
/// what a writer holds, a write adds to that.
#[derive(Drop)]
pub struct Counted<T> {
    inner: T,
    moved: Log<u8, u8>,
    refused: Log<u8, u8>,
    calls: Log<u8, u8>,
    fruitful: Log<u8, u8>,
    ends: Log<u8, u8>,
    failures: Log<u8, u8>,
    narrow: Log<u8, u8>,
    sizes: Log<usize, u8>,
}

impl<T> Counted<T> {
    /// Nothing was read or written yet.
    pub fn new(inner: T) -> Counted<T>
        ensures inner { result.inner ≡ inner }
        ensures moved { bytes_of result.moved.items ≡ [] }
        ensures refused { bytes_of result.refused.items ≡ [] }
        ensures calls { length result.calls.items ≡ 0 }
        ensures fruitful { length result.fruitful.items ≡ 0 }
        ensures ends { length result.ends.items ≡ 0 }
        ensures failures { length result.failures.items ≡ 0 }
        ensures narrow { length result.narrow.items ≡ 0 }
        ensures sizes { numbers_of result.sizes.items ≡ [] }
    {
        Counted {
            inner,
            moved: Log::new(),
            refused: Log::new(),
            calls: Log::new(),
            fruitful: Log::new(),
            ends: Log::new(),
            failures: Log::new(),
            narrow: Log::new(),
            sizes: Log::new(),
        }
    }

    /// The reader or writer itself.
    pub fn into_inner(self) -> T
        ensures { result ≡ self.inner }
    {
        let Counted { inner, .. } = self;
        inner
    }
}

impl<T: Drop> Counted<T> {
    /// What was moved, without the reader or writer. It takes no memory.
    pub fn into_history(self) -> Counted<()>
        ensures { result ≡ history_of self }
    {
        let Counted {
            inner: _,
            moved,
            refused,
            calls,
            fruitful,
            ends,
            failures,
            narrow,
            sizes,
        } = self;
        Counted {
            inner: (),
            moved,
            refused,
            calls,
            fruitful,
            ends,
            failures,
            narrow,
            sizes,
        }
    }
}

/// The history with these bytes at its end.
fn with_bytes(log: Log<u8, u8>, bytes: &[u8]) -> Log<u8, u8>
    ensures { bytes_of result.items ≡ bytes_of log.items ++ bytes.now }
{
    let mut log = log;
    for byte in bytes {
        log = log.and(byte, byte);
    }
    log
}

/// The history with one entry more.
fn with_one(log: &Log<u8, u8>) -> Log<u8, u8>
    ensures { length result.items ≡ length log.now.items + 1 }
{
    log.and(&0, &0)
}

/// The history with this number at its end.
fn with_number(log: &Log<usize, u8>, number: usize) -> Log<usize, u8>
    ensures { numbers_of result.items ≡ numbers_of log.now.items ++ number ∷ [] }
{
    log.and(&number, &0)
}

/// The same, where this is so.
fn with_one_if(log: Log<u8, u8>, so: bool) -> Log<u8, u8>
    ensures { length result.items ≡ length log.items + one_if so }
{
    if so { with_one(&log) } else { log }
}

/// Whether a call moved no byte, though it could have.
fn is_end(count: usize, bytes: &[u8]) -> bool
    ensures { result ≡ is_end count (length bytes.now) }
{
    count == 0 && !bytes.is_empty()
}

/// Whether a read has room for fewer bytes than one of a connection has.
fn is_narrow(bytes: &[u8]) -> bool
    ensures { result ≡ is_narrow (length bytes.now) }
{
    bytes.len() < READ_ROOM
}

impl<T: Read> Source for Counted<T> {
    ghost given = { λ s. record {
      bytes = bytes_of s.moved.items;
      reads = length s.calls.items;
      fruitful = length s.fruitful.items;
      ends = length s.ends.items;
      failures = length s.failures.items;
      narrow = length s.narrow.items;
      sizes = numbers_of s.sizes.items;
      whole = prepend_known (bytes_of s.moved.items) (T.remaining s.inner);
    } };

    #[tactic(auto, using(crate::proofs::StreamLemmas::consumed, crate::proofs::StreamLemmas::kept, crate::proofs::StreamLemmas::at_end))]
    fn read(&mut self, buffer: &mut [u8]) -> Result<usize, Failed> {
        self.calls = with_one(&self.calls);
        let narrow = std::mem::replace(&mut self.narrow, Log::new());
        self.narrow = with_one_if(narrow, is_narrow(buffer));
        match self.inner.read(buffer) {
            Ok(count) => {
                let log = std::mem::replace(&mut self.fruitful, Log::new());
                self.fruitful = with_one_if(log, count != 0);
                let log = std::mem::replace(&mut self.ends, Log::new());
                self.ends = with_one_if(log, is_end(count, buffer));
                let log = std::mem::replace(&mut self.moved, Log::new());
                self.moved = with_bytes(log, &buffer[..count]);
                self.sizes = with_number(&self.sizes, count);
                Ok(count)
            }
            Err(_) => {
                self.failures = with_one(&self.failures);
                self.sizes = with_number(&self.sizes, 0);
                Err(Failed)
            }
        }
    }
}

impl<T: Write> Sink for Counted<T> {
    ghost taken = { λ s. record {
      bytes = bytes_of s.moved.items;
      failures = length s.failures.items;
      refused = bytes_of s.refused.items;
      contents = T.contents s.inner;
    } };

    fn write(&mut self, bytes: &[u8]) -> Result<usize, Failed> {
        match self.inner.write(bytes) {
            Ok(count) => {
                if is_end(count, bytes) {
                    self.failures = with_one(&self.failures);
                    self.refused = with_bytes(Log::new(), bytes);
                }
                let log = std::mem::replace(&mut self.moved, Log::new());
                self.moved = with_bytes(log, &bytes[..count]);
                Ok(count)
            }
            Err(_) => {
                self.failures = with_one(&self.failures);
                self.refused = with_bytes(Log::new(), bytes);
                Err(Failed)
            }
        }
    }
}
