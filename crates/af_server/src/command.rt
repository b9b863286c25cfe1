// The words that the program is given.
ghost use Rattle.std.specs.Prelude.{◌≡◌, map, option_map, string_bytes};
ghost use Rattle.std.specs.Vec.Iter.{into_iter_items};
ghost use Rattle.af_server.specs.Commands.{Asks, AsksOf, AsksOnce, AsksServe, few_words};

use crate::number::number_in;
use crate::worker_count::WorkerCount;
use af_names::Instant;
use std::env;

/// What the words ask for.
#[derive(Drop)]
pub enum Command {
    /// One connection from standard input to standard output, under the configuration at this path, at this moment.
    Once {
        config: String,
        now: Instant,
    },
    /// A server on this port of 127.0.0.1, under the configuration at this path, with so many workers.
    Serve {
        config: String,
        port: u16,
        count: WorkerCount,
    },
    /// Whether the answers of the trace at this path are those of the run of its steps.
    Verify {
        trace: String,
    },
    /// Anything else.
    Usage,
}

impl Command {
    /// Reads these words, of which the first is the program's name.
    pub fn of_words(words: env::Args) -> Command
        ensures { Asks (map string_bytes (into_iter_items words)) result }
    {
        match few(words) {
            Some((verb, path, third, fourth)) => Command::of(verb.as_str(), path, third, fourth),
            None => Command::Usage,
        }
    }

    /// What this verb, a path, and perhaps one or two words more ask for.
    fn of(verb: &str, path: String, third: Option<String>, fourth: Option<String>) -> Command
        ensures { AsksOf verb.now (string_bytes path) (option_map string_bytes third) (option_map string_bytes fourth) result }
    {
        match (third, fourth) {
            (None, None) if verb == "verify" => Command::Verify { trace: path },
            (Some(now), None) if verb == "once" => Command::once(path, now.as_str()),
            (Some(port), Some(count)) if verb == "serve" => {
                Command::serve(path, port.as_str(), count.as_str())
            }
            _ => Command::Usage,
        }
    }

    /// One connection under the configuration at this path, at the moment that the text states.
    fn once(config: String, now: &str) -> Command
        ensures { AsksOnce (string_bytes config) now.now result }
    {
        match Instant::read(now) {
            Ok(now) => Command::Once { config, now },
            Err(_) => Command::Usage,
        }
    }

    /// A server under the configuration at this path, on the port and with the number of workers that the texts state.
    fn serve(config: String, port: &str, count: &str) -> Command
        ensures { AsksServe (string_bytes config) port.now count.now result }
    {
        match (number_in(port), WorkerCount::read(count)) {
            (Some(port), Some(count)) => Command::Serve {
                config,
                port,
                count,
            },
            _ => Command::Usage,
        }
    }
}

/// Two to four words after the program's name.
type Few = (String, String, Option<String>, Option<String>);

/// The words after the program's name, where they are two to four.
fn few(mut words: env::Args) -> Option<Few>
    ensures { option_map (λ found. (string_bytes found.0, string_bytes found.1, option_map string_bytes found.2, option_map string_bytes found.3)) result
        ≡ few_words (map string_bytes (into_iter_items words)) }
{
    let _program = words.next()?;
    let verb = words.next()?;
    let path = words.next()?;
    let third = words.next();
    let fourth = words.next();
    match words.next() {
        Some(_) => None,
        None => Some((verb, path, third, fourth)),
    }
}
