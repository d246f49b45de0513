//! The line of a reply, in memory of its own.

ghost use Rattle.std.specs.Prelude.{◌≡◌, ◌+◌, ◌++◌, ◌≤◌, codes, decimal, length};
ghost use Rattle.std.specs.List.{flat_map};
ghost use Rattle.arrayvec.specs.ArrayVec.{array_vec_len};
ghost use Rattle.cam_station.specs.Replies.{reply_line};

use arrayvec::ArrayVec;
use cam_station::{Fault, Numbers, Reply};
use itoa::Buffer;

/// More bytes than a word and three numbers have.
const ROOM: usize = 160;

/// Puts bytes behind a line.
fn put(line: &mut ArrayVec<u8, ROOM>, bytes: &[u8])
    requires room { array_vec_len line.old + length bytes.now ≤ 160 }
    ensures items { line.new.items ≡ line.old.items ++ bytes.now }
    ensures len { array_vec_len line.new ≡ array_vec_len line.old + length bytes.now }
{
    for byte in bytes {
        line.push(*byte);
    }
}

/// Puts a space and a number behind a line.
fn put_number(line: &mut ArrayVec<u8, ROOM>, number: u64)
    requires room { array_vec_len line.old + 41 ≤ 160 }
    ensures items { line.new.items ≡ line.old.items ++ codes " " ++ decimal number }
    ensures len { array_vec_len line.new ≤ array_vec_len line.old + 41 }
{
    put(line, b" ");
    let mut buffer = Buffer::new();
    put(line, buffer.format(number).as_bytes());
}

/// Puts numbers behind a line, each behind a space, and its end.
fn put_numbers(line: &mut ArrayVec<u8, ROOM>, numbers: &[u64])
    requires few { length numbers.now ≤ 3 }
    requires room { array_vec_len line.old ≤ 7 }
    ensures { line.new.items ≡ line.old.items ++ flat_map (λ n. codes " " ++ decimal n) numbers.now ++ codes "\n" }
{
    for number in numbers {
        put_number(line, *number);
    }
    put(line, b"\n");
}

/// The line of a reply: `ok` and its numbers, or `refused`, the fault's number and, where a reader found it, its place.
pub(crate) fn line_of(reply: &Result<Reply, Fault>) -> ArrayVec<u8, ROOM>
    ensures { result.items ≡ reply_line reply.now }
{
    let mut line = ArrayVec::new();
    match reply {
        Ok(reply) => {
            put(&mut line, b"ok");
            match reply {
                Reply::Done => put_numbers(&mut line, &[]),
                Reply::Numbers(Numbers::One(a)) => put_numbers(&mut line, &[*a]),
                Reply::Numbers(Numbers::Two(a, b)) => put_numbers(&mut line, &[*a, *b]),
                Reply::Numbers(Numbers::Three(a, b, c)) => put_numbers(&mut line, &[*a, *b, *c]),
                Reply::Bytes { bytes: _, drawn } => put_numbers(&mut line, &[*drawn]),
            }
        }
        Err(fault) => {
            put(&mut line, b"refused");
            match fault.at {
                None => put_numbers(&mut line, &[u64::from(fault.number())]),
                Some(at) => put_numbers(&mut line, &[u64::from(fault.number()), at as u64]),
            }
        }
    }
    line
}
