//! The edits that a line asks for.

ghost use Rattle.std.specs.Prelude.{◌≡◌};
ghost use Rattle.cam_script.specs.Parsing.{
  change_in,
  diameter_change,
  edit_line,
  insert_change,
  is_no_memory,
  item_change,
  line_or_refusal,
  move_change,
  plain_change,
};
ghost use Rattle.cam_script.specs.Machinery.Reading.{unless_refused};

use crate::attributes::{drop_change, set_change};
use crate::command::Command;
use crate::items::item;
use crate::line::{Line, LineFault};
use crate::marks::polarity;
use crate::names::{is_name, name_of};
use crate::numbers::{count, length, place, tool};
use crate::pieces::is;
use crate::words::Words;
use cam_edits::{Change, Edit};
use cam_units::Nm;
use std::alloc::Global;

/// The words behind the name of an insertion.
fn insert_change(alloc: Global, words: &mut Words<'_>) -> Result<Change, LineFault>
    ensures { unless_refused (insert_change words.old) (is_no_memory result) ≡ result }
{
    let Some((k, form)) = words.next_two() else {
        return Err(LineFault::BadLine);
    };
    let Some(k) = place(k) else {
        return Err(LineFault::BadLine);
    };
    let item = item(alloc, form, words)?;
    Ok(Change::Insert { k, item })
}

/// The words behind the name of a move.
#[tactic(auto, using(crate::proofs::Forms::no_move))]
fn move_change(words: &mut Words<'_>) -> Option<Change>
    ensures { result ≡ move_change words.old }
{
    let (k, dx, dy) = words.three()?;
    let k = place(k)?;
    let dx = length(dx)?;
    let dy = length(dy)?;
    Some(Change::Move { k, dx, dy })
}

/// The words behind the name of a change of diameter.
#[tactic(auto, using(crate::proofs::Forms::no_diameter))]
fn diameter_change(words: &mut Words<'_>) -> Option<Change>
    ensures { result ≡ diameter_change words.old }
{
    let (t, d) = words.two()?;
    let t = tool(t)?;
    let d = length(d)?;
    Some(Change::Diameter { t, d: Nm(d) })
}

/// The words behind the name of a change of an item that one word says besides its place.
#[tactic(auto, using(crate::proofs::Forms::no_item))]
fn item_change(verb: &[u8], words: &mut Words<'_>) -> Option<Change>
    ensures { result ≡ item_change verb.now words.old }
{
    let (k, word) = words.two()?;
    let k = place(k)?;
    if is(verb, b"reorder") {
        let m = place(word)?;
        Some(Change::Reorder { k, m })
    } else if is(verb, b"aperture") {
        let n = count(word)?;
        Some(Change::Aperture { k, n })
    } else if is(verb, b"polarity") {
        let dark = polarity(word)?;
        Some(Change::Polarity { k, dark })
    } else if is(verb, b"tool") {
        let t = tool(word)?;
        Some(Change::Tool { k, t })
    } else {
        None
    }
}

/// The change that a word names, of the words behind the name, where it takes no memory.
#[tactic(auto, using(crate::proofs::Forms::no_delete))]
fn plain_change(verb: &[u8], words: &mut Words<'_>) -> Option<Change>
    ensures { result ≡ plain_change verb.now words.old }
{
    if is(verb, b"delete") {
        let k = words.one()?;
        let k = place(k)?;
        Some(Change::Delete { k })
    } else if is(verb, b"move") {
        move_change(words)
    } else if is(verb, b"diameter") {
        diameter_change(words)
    } else {
        item_change(verb, words)
    }
}

/// The change that a word names, of the words behind the name.
fn change(alloc: Global, verb: &[u8], words: &mut Words<'_>) -> Result<Change, LineFault>
    ensures { unless_refused (change_in verb.now words.old) (is_no_memory result) ≡ result }
{
    if is(verb, b"insert") {
        insert_change(alloc, words)
    } else if is(verb, b"setattr") {
        set_change(alloc, words)
    } else if is(verb, b"dropattr") {
        drop_change(alloc, words)
    } else {
        plain_change(verb, words).ok_or(LineFault::BadLine)
    }
}

/// The edit that a word names, and the words behind it. All words are judged before the name takes memory.
pub fn edit(alloc: Global, verb: &[u8], words: &mut Words<'_>) -> Result<Line, LineFault>
    ensures { line_or_refusal (edit_line verb.now words.old) (is_no_memory result) ≡ result }
{
    let Some(name) = words.next() else {
        return Err(LineFault::BadLine);
    };
    if !is_name(name) {
        return Err(LineFault::BadLine);
    }
    let change = change(alloc, verb, words)?;
    let name = name_of(alloc, name)?;
    Ok(Line::Command(Command::from(Edit { name, change })))
}
