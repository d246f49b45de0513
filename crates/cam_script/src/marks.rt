//! Words that stand for one of a few values.

ghost use Rattle.std.specs.Prelude.{◌≡◌};
ghost use Rattle.cam_script.specs.Items.{direction_in, is_line, polarity_read, turn_read};
ghost use Rattle.cam_script.specs.Parsing.{kind_in};

use crate::command::FileKind;
use crate::pieces::is;
use cam_units::Turn;

/// The kind of file that a word names.
pub fn kind(word: &[u8]) -> Option<FileKind>
    ensures { result ≡ kind_in word.now }
{
    if is(word, b"gerber") {
        Some(FileKind::Gerber)
    } else if is(word, b"drill") {
        Some(FileKind::Drill)
    } else {
        None
    }
}

/// The mirror and the quarter turns that a word names.
pub fn turn(word: &[u8]) -> Option<Turn>
    ensures { result ≡ turn_read word.now }
{
    if is(word, b"r0") {
        Some(Turn::R0)
    } else if is(word, b"r90") {
        Some(Turn::R90)
    } else if is(word, b"r180") {
        Some(Turn::R180)
    } else if is(word, b"r270") {
        Some(Turn::R270)
    } else if is(word, b"m0") {
        Some(Turn::M0)
    } else if is(word, b"m90") {
        Some(Turn::M90)
    } else if is(word, b"m180") {
        Some(Turn::M180)
    } else if is(word, b"m270") {
        Some(Turn::M270)
    } else {
        None
    }
}

/// Whether an object is dark.
pub fn polarity(word: &[u8]) -> Option<bool>
    ensures { result ≡ polarity_read word.now }
{
    if is(word, b"dark") {
        Some(true)
    } else if is(word, b"clear") {
        Some(false)
    } else {
        None
    }
}

/// Whether an arc goes counterclockwise.
pub fn direction(word: &[u8]) -> Option<bool>
    ensures { result ≡ direction_in word.now }
{
    if is(word, b"cw") {
        Some(false)
    } else if is(word, b"ccw") {
        Some(true)
    } else {
        None
    }
}

/// Whether a segment is a straight line.
pub fn is_line(word: &[u8]) -> bool
    ensures { result ≡ is_line word.now }
{
    is(word, b"l")
}
