//! Reads a line of a script.

ghost use Rattle.std.specs.Prelude.{◌≡◌};
ghost use Rattle.cam_script.specs.Parsing.{
  is_no_memory,
  line_in,
  line_or_refusal,
  list_line,
  load_line,
  parsed,
  put_line,
  redraw_line,
  window_line,
};
ghost use Rattle.cam_script.specs.Words.{alone};

use crate::command::Command;
use crate::edits::edit;
use crate::line::{Line, LineFault};
use crate::marks::kind;
use crate::names::{is_name, is_path, name_of, path_of};
use crate::numbers::{count, length};
use crate::pieces::{first_byte, is};
use crate::words::Words;
use cam_refusals::limits::LINE_LIMIT;
use std::alloc::Global;

/// The words behind `load`.
#[tactic(auto, using(crate::proofs::Forms::no_load))]
fn load(alloc: Global, words: &mut Words<'_>) -> Result<Line, LineFault>
    ensures { line_or_refusal (load_line words.old) (is_no_memory result) ≡ result }
{
    let (name, kind_word, path) = words.three().ok_or(LineFault::BadLine)?;
    let kind = kind(kind_word).ok_or(LineFault::BadLine)?;
    if !is_name(name) || !is_path(path) {
        return Err(LineFault::BadLine);
    }
    let name = name_of(alloc, name)?;
    let path = path_of(alloc, path)?;
    Ok(Line::Load { name, kind, path })
}

/// The words behind `window`.
#[tactic(auto, using(crate::proofs::Forms::no_window))]
fn window(words: &mut Words<'_>) -> Option<Line>
    ensures { result ≡ window_line words.old }
{
    let (x, y, pitch, width, height) = words.five()?;
    let x = length(x)?;
    let y = length(y)?;
    let pitch = length(pitch)?;
    let width = count(width)?;
    let height = count(height)?;
    Some(Line::Command(Command::SetWindow {
        x,
        y,
        pitch,
        width,
        height,
    }))
}

/// The words behind `redraw`.
#[tactic(auto, using(crate::proofs::Forms::no_redraw))]
fn redraw(words: &mut Words<'_>) -> Option<Line>
    ensures { result ≡ redraw_line words.old }
{
    let at_most = words.one()?;
    let at_most = count(at_most)?;
    Some(Line::Command(Command::Redraw { at_most }))
}

/// The words behind `plot`, or those behind `write`.
#[tactic(auto, using(crate::proofs::Forms::putting))]
fn put(alloc: Global, is_plot: bool, words: &mut Words<'_>) -> Result<Line, LineFault>
    ensures { line_or_refusal (put_line is_plot words.old) (is_no_memory result) ≡ result }
{
    let (name, path) = words.two().ok_or(LineFault::BadLine)?;
    if !is_name(name) || !is_path(path) {
        return Err(LineFault::BadLine);
    }
    let name = name_of(alloc, name)?;
    let path = path_of(alloc, path)?;
    if is_plot {
        Ok(Line::Plot { name, path })
    } else {
        Ok(Line::Write { name, path })
    }
}

/// The words behind `list`.
fn list(alloc: Global, words: &mut Words<'_>) -> Result<Line, LineFault>
    ensures { line_or_refusal (list_line words.old) (is_no_memory result) ≡ result }
{
    let Some(name) = words.next() else {
        return Ok(Line::Command(Command::ListAll));
    };
    if words.next().is_some() || !is_name(name) {
        return Err(LineFault::BadLine);
    }
    let name = name_of(alloc, name)?;
    Ok(Line::Command(Command::ListLayer { name }))
}

/// The line of a command that is its word alone.
fn bare(command: Command, words: &mut Words<'_>) -> Result<Line, LineFault>
    ensures { line_or_refusal (alone (Line.Command command) words.old) (is_no_memory result) ≡ result }
{
    if words.next().is_some() {
        return Err(LineFault::BadLine);
    }
    Ok(Line::Command(command))
}

/// The line of a first word and those behind it.
fn line_of(alloc: Global, verb: &[u8], words: &mut Words<'_>) -> Result<Line, LineFault>
    ensures { line_or_refusal (line_in verb.now words.old) (is_no_memory result) ≡ result }
{
    if is(verb, b"load") {
        load(alloc, words)
    } else if is(verb, b"window") {
        window(words).ok_or(LineFault::BadLine)
    } else if is(verb, b"redraw") {
        redraw(words).ok_or(LineFault::BadLine)
    } else if is(verb, b"plot") {
        put(alloc, true, words)
    } else if is(verb, b"write") {
        put(alloc, false, words)
    } else if is(verb, b"list") {
        list(alloc, words)
    } else if is(verb, b"begin") {
        bare(Command::Begin, words)
    } else if is(verb, b"end") {
        bare(Command::End, words)
    } else if is(verb, b"abort") {
        bare(Command::Abort, words)
    } else if is(verb, b"undo") {
        bare(Command::Undo, words)
    } else if is(verb, b"redo") {
        bare(Command::Redo, words)
    } else {
        edit(alloc, verb, words)
    }
}

/// What a line says, without the line feed at its end: nothing where it has no word or is a
/// comment.
///
/// A line of more than 65,536 bytes is too long, whatever it holds. Memory is asked for only
/// where the line is a command.
pub fn parse_line(alloc: Global, line: &[u8]) -> Result<Option<Line>, LineFault>
    ensures { parsed line.now (is_no_memory result) ≡ result }
{
    if line.len() > LINE_LIMIT {
        return Err(LineFault::LineTooLong);
    }
    let mut words = Words::new(line);
    let Some(verb) = words.next() else {
        return Ok(None);
    };
    if first_byte(verb) == b'#' {
        return Ok(None);
    }
    let line = line_of(alloc, verb, &mut words)?;
    Ok(Some(line))
}
