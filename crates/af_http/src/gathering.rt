ghost use Rattle.std.specs.Prelude.{◌≡◌, ℕ, ◌+◌, ◌<◌, ◌≤◌, List, [], ◌++◌, length, false};
ghost use Rattle.af_http.specs.Fronts.{front_of};
ghost use Rattle.af_http.specs.Extents.{IsExtent, open_front};
ghost use Rattle.af_http.specs.Limits.{head_limit, read_limit, unread_limit};
ghost use Rattle.af_http.specs.Streams.{Took, EachWhile};
ghost use Rattle.af_http.specs.Reading.{IsOpen};
ghost use Rattle.af_http.specs.Gathering.{IsGathered, Holds, Fills, IsBodyGathered, ends_of, failures_of, body_ends, body_failures};

use crate::extent::Extent;
use crate::incoming::Incoming;
use crate::lines::blanks_len;
use crate::outgoing::Outgoing;
use crate::stream::Source;

/// The most reads for one request.
pub const READ_LIMIT: u32 = 65_536;

/// How gathering the bytes of a head ended.
#[derive(Clone, Copy, Debug, PartialEq, Eq)]
pub enum Gathered {
    /// A head of so many bytes stands at the front of what is held.
    Head(usize),
    /// More bytes than a head may have.
    Large,
    /// The input ended, and empty lines at most stood before its end.
    Closed,
    /// The input ended within a head.
    Incomplete,
    /// A read failed.
    ReadFailed,
    /// There were too many reads.
    Turns,
}

/// How gathering the bytes of a body ended.
#[derive(Clone, Copy, Debug, PartialEq, Eq)]
pub enum BodyGathered {
    /// It is whole.
    Whole,
    /// The input ended within it.
    Cut,
    /// A read failed.
    ReadFailed,
    /// There were too many reads.
    Turns,
}

/// Drops the empty lines at the front, and says what stands there then.
pub fn settle(incoming: &mut Incoming) -> Extent
    ensures same { (tail : List ℕ) → front_of (incoming.old ++ tail) ≡ front_of (incoming.new ++ tail) }
    ensures extent { IsExtent incoming.new result }
{
    incoming.drop_front(blanks_len(incoming.as_slice()));
    incoming.extent()
}

/// What is held where no byte follows it.
fn cut_short(incoming: &Incoming) -> Gathered
    requires open { front_of incoming.now ≡ open_front incoming.now }
    ensures found { IsGathered incoming.now result }
    ensures ends { ends_of result ≡ 1 }
    ensures failures { failures_of result ≡ 0 }
{
    if incoming.as_slice().is_empty() {
        Gathered::Closed
    } else {
        Gathered::Incomplete
    }
}

/// What is held once bytes have come, and its empty lines are dropped: for a head that is not whole one read was too few.
fn settled(incoming: &mut Incoming) -> Gathered
    ensures same { (tail : List ℕ) → front_of (incoming.old ++ tail) ≡ front_of (incoming.new ++ tail) }
    ensures found { IsGathered incoming.new result }
    ensures ends { ends_of result ≡ 0 }
    ensures failures { failures_of result ≡ 0 }
    ensures short { result ≡ Gathered.Turns → length incoming.new ≤ head_limit }
{
    match settle(incoming) {
        Extent::Whole(n) => Gathered::Head(n),
        Extent::Large => Gathered::Large,
        Extent::Part => Gathered::Turns,
    }
}

/// Gathers a head as where there may be one read.
fn gather_once<R: Source>(reader: &mut R, incoming: &mut Incoming, waiting: &Outgoing) -> Gathered
    requires idle { waiting.now.bytes ≡ [] }
    requires sound { waiting.now.failed ≡ false }
    requires open { front_of incoming.old ≡ open_front incoming.old }
    requires short { length incoming.old ≤ head_limit }
    ensures holds { (more : List ℕ) × Holds (R.given reader.old) (R.given reader.new) incoming.old incoming.new more }
    ensures found { IsGathered incoming.new result }
    ensures took { Took 1 (ends_of result) (failures_of result) (R.given reader.old) (R.given reader.new) }
    ensures short { result ≡ Gathered.Turns → length incoming.new ≤ head_limit }
{
    match incoming.fill(reader, waiting) {
        Ok(true) => settled(incoming),
        Ok(false) => cut_short(incoming),
        Err(_) => Gathered::ReadFailed,
    }
}

/// Reads until a head is held, or none can be. A read may wait for the client, so no byte may wait for the writer.
pub fn gather<R: Source>(
    reader: &mut R,
    incoming: &mut Incoming,
    waiting: &Outgoing,
) -> (Gathered, u32)
    requires idle { waiting.now.bytes ≡ [] }
    requires sound { waiting.now.failed ≡ false }
    requires open { front_of incoming.old ≡ open_front incoming.old }
    requires short { length incoming.old ≤ head_limit }
    ensures holds { (more : List ℕ) × Holds (R.given reader.old) (R.given reader.new) incoming.old incoming.new more
        × EachWhile (λ brought. IsOpen (incoming.old ++ brought)) (R.given reader.old) (R.given reader.new) more }
    ensures found { IsGathered incoming.new result.0 }
    ensures took { Took result.1 (ends_of result.0) (failures_of result.0) (R.given reader.old) (R.given reader.new) }
    ensures few { result.1 ≤ read_limit }
    ensures turns { result.0 ≡ Gathered.Turns → result.1 ≡ read_limit }
{
    for count in 0..READ_LIMIT {
        match gather_once(reader, incoming, waiting) {
            Gathered::Turns => {}
            found => return (found, count + 1),
        }
    }
    (Gathered::Turns, READ_LIMIT)
}

/// Gathers a body of so many bytes as where there may be one read.
fn gather_body_once<R: Source>(
    reader: &mut R,
    incoming: &mut Incoming,
    waiting: &Outgoing,
    wanted: usize,
) -> BodyGathered
    requires idle { waiting.now.bytes ≡ [] }
    requires sound { waiting.now.failed ≡ false }
    requires short { length incoming.old < wanted }
    requires within { wanted ≤ unread_limit + 1 }
    ensures came { (more : List ℕ) × Fills (R.given reader.old) (R.given reader.new) incoming.old incoming.new more }
    ensures found { IsBodyGathered wanted incoming.new result }
    ensures took { Took 1 (body_ends result) (body_failures result) (R.given reader.old) (R.given reader.new) }
{
    match incoming.fill(reader, waiting) {
        Ok(true) if incoming.as_slice().len() < wanted => BodyGathered::Turns,
        Ok(true) => BodyGathered::Whole,
        Ok(false) => BodyGathered::Cut,
        Err(_) => BodyGathered::ReadFailed,
    }
}

/// Reads until so many bytes are held, in as many reads as so many before it leave of those for one request.
pub fn gather_body<R: Source>(
    reader: &mut R,
    incoming: &mut Incoming,
    waiting: &Outgoing,
    wanted: usize,
    before: u32,
) -> (BodyGathered, u32)
    requires idle { waiting.now.bytes ≡ [] }
    requires sound { waiting.now.failed ≡ false }
    requires short { length incoming.old < wanted }
    requires within { wanted ≤ unread_limit + 1 }
    requires few { before ≤ read_limit }
    ensures came { (more : List ℕ) × Fills (R.given reader.old) (R.given reader.new) incoming.old incoming.new more
        × EachWhile (λ brought. length (incoming.old ++ brought) < wanted) (R.given reader.old) (R.given reader.new) more }
    ensures found { IsBodyGathered wanted incoming.new result.0 }
    ensures took { Took result.1 (body_ends result.0) (body_failures result.0) (R.given reader.old) (R.given reader.new) }
    ensures few { before + result.1 ≤ read_limit }
    ensures turns { result.0 ≡ BodyGathered.Turns → before + result.1 ≡ read_limit }
{
    for count in before..READ_LIMIT {
        match gather_body_once(reader, incoming, waiting, wanted) {
            BodyGathered::Turns => {}
            found => return (found, count - before + 1),
        }
    }
    (BodyGathered::Turns, READ_LIMIT - before)
}
