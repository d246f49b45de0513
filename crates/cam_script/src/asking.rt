//! Reads questions.

ghost use Rattle.std.specs.Prelude.{◌≡◌};
ghost use Rattle.cam_script.specs.Parsing.{is_no_memory};
ghost use Rattle.cam_script.specs.Questions.{
  asked,
  at_query,
  box_query,
  in_query,
  layer_question,
  query_in,
  unless_nameless,
};
ghost use Rattle.cam_script.specs.Words.{alone};

use crate::line::LineFault;
use crate::names::{is_name, name_of};
use crate::numbers::{place, point};
use crate::pieces::is;
use crate::question::{Query, Question};
use crate::words::Words;
use cam_refusals::limits::LINE_LIMIT;
use std::alloc::Global;

/// The words behind `at` and a name.
#[tactic(auto, using(crate::proofs::Queries::no_at))]
fn at_query(words: &mut Words<'_>) -> Option<Query>
    ensures { result ≡ at_query words.old }
{
    let at = words.next_two()?;
    let Some(before) = words.next() else {
        let at = point(at)?;
        return Some(Query::At { at, before: None });
    };
    if words.next().is_some() {
        return None;
    }
    let at = point(at)?;
    let before = place(before)?;
    Some(Query::At {
        at,
        before: Some(before),
    })
}

/// The words behind `in` and a name.
#[tactic(auto, using(crate::proofs::Queries::no_in))]
fn in_query(words: &mut Words<'_>) -> Option<Query>
    ensures { result ≡ in_query words.old }
{
    let (x0, y0, x1, y1) = words.four()?;
    let from = point((x0, y0))?;
    let to = point((x1, y1))?;
    Some(Query::In { from, to })
}

/// The words behind `box` and a name.
fn box_query(words: &mut Words<'_>) -> Option<Query>
    ensures { result ≡ box_query words.old }
{
    let Some(k) = words.next() else {
        return Some(Query::Bounds);
    };
    if words.next().is_some() {
        return None;
    }
    let k = place(k)?;
    Some(Query::ItemBounds { k })
}

/// What is said by a word behind which none stands.
fn alone<T: Drop>(said: T, words: &mut Words<'_>) -> Option<T>
    ensures { result ≡ alone said words.old }
{
    match words.next() {
        Some(_) => None,
        None => Some(said),
    }
}

/// What is asked of a layer, by the first word and those behind the name.
#[tactic(auto, using(crate::proofs::Queries::by_places))]
fn query(verb: &[u8], words: &mut Words<'_>) -> Option<Query>
    ensures { result ≡ query_in verb.now words.old }
{
    if is(verb, b"at") {
        at_query(words)
    } else if is(verb, b"in") {
        in_query(words)
    } else if is(verb, b"item") {
        let k = words.one()?;
        let k = place(k)?;
        Some(Query::Item { k })
    } else if is(verb, b"items") {
        let (from, count) = words.two()?;
        let from = place(from)?;
        let count = place(count)?;
        Some(Query::Items { from, count })
    } else if is(verb, b"box") {
        box_query(words)
    } else if is(verb, b"entry") {
        let i = words.one()?;
        let i = place(i)?;
        Some(Query::Entry { i })
    } else if is(verb, b"entries") {
        alone(Query::Entries, words)
    } else if is(verb, b"attributes") {
        alone(Query::Attributes, words)
    } else {
        None
    }
}

/// A question of a layer. All words are judged before the name takes memory.
fn layer_question(alloc: Global, verb: &[u8], words: &mut Words<'_>) -> Result<Question, LineFault>
    ensures { unless_nameless (layer_question verb.now words.old) (is_no_memory result) ≡ result }
{
    let name = words.next().ok_or(LineFault::BadLine)?;
    if !is_name(name) {
        return Err(LineFault::BadLine);
    }
    let query = query(verb, words).ok_or(LineFault::BadLine)?;
    let name = name_of(alloc, name)?;
    Ok(Question::OfLayer { name, query })
}

/// What a question says, in a line without the line feed at its end: 80 where it is none, as where it has no word.
///
/// Words are separated by spaces or tabs, as in the lines of scripts. A line of more than 65,536 bytes is too long (81),
/// whatever it holds. Memory is asked for only where a layer is named (30).
pub fn parse_question(alloc: Global, line: &[u8]) -> Result<Question, LineFault>
    ensures { asked line.now (is_no_memory result) ≡ result }
{
    if line.len() > LINE_LIMIT {
        return Err(LineFault::LineTooLong);
    }
    let mut words = Words::new(line);
    let verb = words.next().ok_or(LineFault::BadLine)?;
    if is(verb, b"layers") {
        alone(Question::Layers, &mut words).ok_or(LineFault::BadLine)
    } else if is(verb, b"history") {
        alone(Question::History, &mut words).ok_or(LineFault::BadLine)
    } else {
        layer_question(alloc, verb, &mut words)
    }
}
