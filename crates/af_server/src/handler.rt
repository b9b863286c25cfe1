ghost use Rattle.std.specs.Prelude.{◌≡◌};
ghost use Rattle.af_http.specs.Streams.{Given, Taken};
ghost use Rattle.af_http.specs.declared.ended.Ended.{Ended};

use af_http::{Ended, Sink, Source};

/// What is done with a connection. It has the connection's own reader and writer, and can make up neither.
pub trait Handler {
    /// Whether it may come to this: what the reader has given, and what the writer has taken, before and after; and how the connection ended.
    ghost handles: { Self → Given → Given → Taken → Taken → Ended → Self → Type 0 };

    /// Handles one connection.
    fn handle<R: Source, W: Sink>(&mut self, reader: &mut R, writer: &mut W) -> Ended
        ensures { handles self.old (R.given reader.old) (R.given reader.new) (W.taken writer.old) (W.taken writer.new) result self.new };
}
