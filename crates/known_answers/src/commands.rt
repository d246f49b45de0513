//! Words and extended commands, and what they say (Gerber Layer Format Specification, "Commands overview").

mod extended;
mod fields;
mod words;

use crate::tables::{each, each_in};
use cam_commands::{Command, Operation, Repeat, command_of, start_of};
use cam_words::Words;
use extended::{EXTENDED, FREE};
use fields::{OPERATIONS, Operated, REPEATS, Repeated};
use std::alloc::{AllocError, Global};
use std::test::Fail;
use words::{Said, WORDS};

/// Texts of one command, and where it begins.
const STARTS: &[(&[u8], usize)] = &[
    (b"X1D02*", 0),
    (b"\n X1D02*", 2),
    (b"*", 0),
    (b"\tG04 a*", 1),
    (b"%MOMM*%", 0),
    (b"\r\n\r\n% MOMM*%", 4),
    (b" %*%", 1),
];

/// Whether two commands are the same, by their texts: commands have no equality.
fn is_same(alloc: Global, one: &Command<'_>, other: &Command<'_>) -> Result<bool, AllocError> {
    Ok(format!(in alloc; "{one:?}")? == format!(in alloc; "{other:?}")?)
}

/// The place of the first word of the text that says another command, or is not so or is so an extended command.
fn wrong_word(
    alloc: Global,
    text: &[u8],
    wanted: &Command<'_>,
    is_extended: bool,
) -> Result<Option<usize>, AllocError> {
    let mut words = Words::new(text);
    // a word has a byte at least
    for _ in text {
        let word = match words.next() {
            None => break,
            Some(Err(fault)) => return Ok(Some(fault.at)),
            Some(Ok(word)) => word,
        };
        let command = command_of(word);
        if command.is_extended() != is_extended || !is_same(alloc, &command, wanted)? {
            return Ok(Some(start_of(word)));
        }
    }
    Ok(None)
}

/// Whether each word of the row's text says its command, and is no extended command.
fn is_said(alloc: Global, (command, text): &Said) -> Result<bool, AllocError> {
    Ok(wrong_word(alloc, text, command, false)?.is_none())
}

/// The same where each is an extended command.
fn is_said_as_extended(alloc: Global, (command, text): &Said) -> Result<bool, AllocError> {
    Ok(wrong_word(alloc, text, command, true)?.is_none())
}

#[test]
fn commands(rt: HostRuntime) -> Result<(), Fail> {
    each_in(rt.alloc(), WORDS, is_said)?;
    each_in(rt.alloc(), EXTENDED, is_said_as_extended)?;
    each_in(rt.alloc(), FREE, is_said)
}

/// Whether the text is this operation.
fn is_operation(alloc: Global, row: &Operated) -> Result<bool, AllocError> {
    let &(text, mode, [x, y, i, j], code) = row;
    let wanted = Command::Operate(Operation {
        mode,
        x,
        y,
        i,
        j,
        code,
    });
    Ok(wrong_word(alloc, text, &wanted, false)?.is_none())
}

/// Whether the text opens this repeat.
fn is_repeat(alloc: Global, row: &Repeated) -> Result<bool, AllocError> {
    let &(text, [columns, rows], [i, j]) = row;
    let wanted = Command::SetRepeat(Repeat {
        columns,
        rows,
        i,
        j,
    });
    Ok(wrong_word(alloc, text, &wanted, true)?.is_none())
}

/// Whether the first command of the text begins there.
fn begins_at(&(text, wanted): &(&[u8], usize)) -> bool {
    match Words::new(text).next() {
        Some(Ok(word)) => start_of(word) == wanted,
        _ => false,
    }
}

#[test]
fn operations(rt: HostRuntime) -> Result<(), Fail> {
    each_in(rt.alloc(), OPERATIONS, is_operation)?;
    each_in(rt.alloc(), REPEATS, is_repeat)?;
    each(STARTS, begins_at)
}
