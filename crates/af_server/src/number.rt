// Numbers among the words of the program.
ghost use Rattle.af_server.specs.Commands.{States, most_number};

/// The number that a text of decimal digits states, up to 65,535. A sign is no digit.
pub(crate) fn number_in(text: &str) -> Option<u16>
    ensures { States 0 most_number text.now result }
{
    if text.as_bytes().first() == Some(&b'+') {
        return None;
    }
    text.parse::<u16>().ok()
}
