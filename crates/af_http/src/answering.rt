ghost use Rattle.std.specs.Prelude.{◌≡◌, ◌<◌, ◌++◌, false, length};
ghost use Rattle.af_http.specs.Answers.{number_line, number_line_of, type_line, length_line, allow_line, auth_line, head_text, body_text, answer_text, told};
ghost use Rattle.std.specs.Option.{option_copied};
ghost use Rattle.af_http.specs.Limits.{outgoing_room};
ghost use Rattle.af_http.specs.Sending.{Puts};

use crate::answer::Answer;
use crate::outgoing::Outgoing;
use crate::stream::Sink;
use crate::wording::{allow_line, body_line, last_lines, status_line};
use af_ops::{Methods, Status};
use itoa::Buffer;

/// Puts a field of this name with a number.
fn put_number<W: Sink>(writer: &mut W, outgoing: &mut Outgoing, name: &[u8], number: u64)
    ensures { Puts 0
        (record { sink = W.taken writer.old; waiting = outgoing.old })
        (record { sink = W.taken writer.new; waiting = outgoing.new })
        (number_line name.now number) }
{
    let mut digits = Buffer::new();
    outgoing.put(writer, name);
    outgoing.put(writer, digits.format(number).as_bytes());
    outgoing.put(writer, b"\r\n");
}

/// Puts a field of this name with a number, if there is one.
fn put_number_of<W: Sink>(writer: &mut W, outgoing: &mut Outgoing, name: &[u8], number: Option<u32>)
    ensures { Puts 0
        (record { sink = W.taken writer.old; waiting = outgoing.old })
        (record { sink = W.taken writer.new; waiting = outgoing.new })
        (number_line_of name.now number) }
{
    if let Some(number) = number {
        put_number(writer, outgoing, name, u64::from(number));
    }
}

/// Puts the type and the length of a body, if there is one.
fn put_body_fields<W: Sink>(
    writer: &mut W,
    outgoing: &mut Outgoing,
    status: Status,
    body: Option<&[u8]>,
)
    ensures { Puts 0
        (record { sink = W.taken writer.old; waiting = outgoing.old })
        (record { sink = W.taken writer.new; waiting = outgoing.new })
        (type_line status (option_copied body.entry) ++ length_line (option_copied body.entry)) }
{
    if let Some(bytes) = body {
        put_number(writer, outgoing, body_line(status), bytes.len() as u64);
    }
}

/// Puts the methods of a path, if they are told.
fn put_allow<W: Sink>(writer: &mut W, outgoing: &mut Outgoing, allow: Option<Methods>)
    ensures { Puts 0
        (record { sink = W.taken writer.old; waiting = outgoing.old })
        (record { sink = W.taken writer.new; waiting = outgoing.new })
        (allow_line allow) }
{
    if let Some(allow) = allow {
        outgoing.put(writer, allow_line(allow));
    }
}

/// Puts what 401 asks for.
fn put_auth<W: Sink>(writer: &mut W, outgoing: &mut Outgoing, status: Status)
    ensures { Puts 0
        (record { sink = W.taken writer.old; waiting = outgoing.old })
        (record { sink = W.taken writer.new; waiting = outgoing.new })
        (auth_line status) }
{
    match status {
        Status::Unauthorized => outgoing.put(writer, b"WWW-Authenticate: Bearer\r\n"),
        _ => {}
    }
}

/// Puts the status line, the fields and the empty line.
fn put_head<W: Sink>(writer: &mut W, outgoing: &mut Outgoing, answer: &Answer<'_>, closes: bool)
    requires room { outgoing.old.failed ≡ false → length outgoing.old.bytes < outgoing_room }
    ensures { Puts 1
        (record { sink = W.taken writer.old; waiting = outgoing.old })
        (record { sink = W.taken writer.new; waiting = outgoing.new })
        (head_text (told answer.now) closes) }
{
    outgoing.begin(writer, status_line(answer.status));
    put_body_fields(writer, outgoing, answer.status, answer.body);
    put_allow(writer, outgoing, answer.allow);
    put_auth(writer, outgoing, answer.status);
    put_number_of(writer, outgoing, b"X-Policy-Version: ", answer.version);
    put_number_of(writer, outgoing, b"X-Plane-Seq: ", answer.seq);
    outgoing.put(writer, last_lines(closes));
}

/// The body, unless it is left out.
fn body_part<'b>(answer: &Answer<'b>, head_only: bool) -> &'b [u8]
    ensures { result.now ≡ body_text head_only (told answer.now).body }
{
    match answer.body {
        Some(bytes) if !head_only => bytes,
        _ => b"",
    }
}

/// Puts the bytes of an answer.
pub fn put_answer<W: Sink>(
    writer: &mut W,
    outgoing: &mut Outgoing,
    answer: &Answer<'_>,
    head_only: bool,
    closes: bool,
)
    requires room { outgoing.old.failed ≡ false → length outgoing.old.bytes < outgoing_room }
    ensures { Puts 1
        (record { sink = W.taken writer.old; waiting = outgoing.old })
        (record { sink = W.taken writer.new; waiting = outgoing.new })
        (answer_text (told answer.now) head_only closes) }
{
    put_head(writer, outgoing, answer, closes);
    outgoing.put(writer, body_part(answer, head_only));
}
