//! Reply lines, which take no memory.

ghost use Rattle.std.specs.Prelude.{◌++◌, codes, decimal};
ghost use Rattle.std.specs.Bool.{OnTrue};
ghost use Rattle.std.specs.Io.KnownBytes.{Appends};
ghost use Rattle.cam_station.specs.Files.{HasRisenBy, unsaid};
ghost use Rattle.cam_station.specs.Replies.{line_with, reply_line};

use crate::fault::Fault;
use crate::out::Out;
use crate::reply::{Numbers, Reply};
use itoa::Buffer;

/// Says a space and a number.
fn say_number<O: Out>(out: &mut O, number: u64) -> bool
    ensures said { OnTrue result
        (Appends (O.said out.old) (O.said out.new) (codes " " ++ decimal number)) }
    ensures counted { HasRisenBy (unsaid result) (O.failed out.old) (O.failed out.new) }
{
    if !out.say(b" ") {
        return false;
    }
    let mut buffer = Buffer::new();
    out.say(buffer.format(number).as_bytes())
}

/// Says a line of a word and numbers.
fn say_line<O: Out>(out: &mut O, word: &[u8], numbers: &[u64]) -> bool
    ensures said { OnTrue result
        (Appends (O.said out.old) (O.said out.new) (line_with word.now numbers.now)) }
    ensures counted { HasRisenBy (unsaid result) (O.failed out.old) (O.failed out.new) }
{
    if !out.say(word) {
        return false;
    }
    for number in numbers {
        if !say_number(out, *number) {
            return false;
        }
    }
    out.say(b"\n")
}

/// Says the line of a reply: `ok` and its numbers (of bytes, how many tiles were drawn), or
/// `refused`, the fault's number and, where a reader found it, its place.
pub fn say_reply<O: Out>(out: &mut O, reply: &Result<Reply, Fault>) -> bool
    ensures said { OnTrue result
        (Appends (O.said out.old) (O.said out.new) (reply_line reply.now)) }
    ensures counted { HasRisenBy (unsaid result) (O.failed out.old) (O.failed out.new) }
{
    match reply {
        Ok(Reply::Done) => say_line(out, b"ok", &[]),
        Ok(Reply::Numbers(Numbers::One(a))) => say_line(out, b"ok", &[*a]),
        Ok(Reply::Numbers(Numbers::Two(a, b))) => say_line(out, b"ok", &[*a, *b]),
        Ok(Reply::Numbers(Numbers::Three(a, b, c))) => say_line(out, b"ok", &[*a, *b, *c]),
        Ok(Reply::Bytes { bytes: _, drawn }) => say_line(out, b"ok", &[*drawn]),
        Err(fault) => match fault.at {
            None => say_line(out, b"refused", &[u64::from(fault.number())]),
            Some(at) => say_line(out, b"refused", &[u64::from(fault.number()), at as u64]),
        },
    }
}
