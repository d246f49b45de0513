//! Answers questions.

ghost use Rattle.std.specs.Prelude.{◌++◌, ◌≡◌, Err, IfOk, OnOk, option_to_list, slice_get};
ghost use Rattle.std.specs.List.{flat_map};
ghost use Rattle.cam_edits.specs.Boards.{place_named};
ghost use Rattle.cam_edits.specs.Sheets.{IsSound, content_of};
ghost use Rattle.cam_undo.specs.Counted.{counts_at};
ghost use Rattle.cam_station.specs.Machine.{fault};
ghost use Rattle.cam_ask.specs.Answers.{IsAnswer, IsAnswerAt, IsAnswerOf, IsAsked, sheet_line};
ghost use Rattle.cam_ask.specs.Texts.{history_line};

use crate::lines::{push_history, push_layer};
use crate::telling::{can_be_asked, has_place, told};
use cam_edits::{Name, SheetContent};
use cam_refusals::Refusal;
use cam_script::{Bytes, Query, Question, parse_question};
use cam_station::{Fault, Station};
use std::alloc::{AllocError, Global};

/// A refusal.
fn refused(code: Refusal) -> Result<Bytes, Fault>
    ensures { result ≡ Err (fault code) }
{
    Err(Fault { code, at: None })
}

/// Writes the line of the layer at a place.
fn push_layer_at(text: &mut Vec<u8>, station: &Station, place: usize) -> Result<(), AllocError>
    ensures { OnOk result (text.new.items ≡ text.old.items
        ++ flat_map sheet_line (option_to_list (slice_get station.now.timeline.document place))) }
{
    match station.layer(place) {
        Some(sheet) => push_layer(text, &sheet.name, &sheet.content),
        None => Ok(()),
    }
}

/// Writes the lines of the layers.
fn told_layers(alloc: Global, station: &Station) -> Result<Vec<u8>, AllocError>
    ensures { IfOk result
        (λ text. text.items ≡ flat_map sheet_line station.now.timeline.document) }
{
    let mut text = Vec::new(alloc);
    for place in 0..station.layer_count() {
        push_layer_at(&mut text, station, place)?;
    }
    Ok(text)
}

/// Writes the line of the history.
fn told_history(alloc: Global, station: &Station) -> Result<Vec<u8>, AllocError>
    ensures { IfOk result (λ text. text.items ≡ history_line (counts_at station.now.timeline)) }
{
    let mut text = Vec::new(alloc);
    push_history(&mut text, station.history())?;
    Ok(text)
}

/// The answer of what a layer holds.
fn answer_of(alloc: Global, content: &SheetContent, query: Query) -> Result<Bytes, Fault>
    requires { IsSound (content_of content.now) }
    ensures { IsAnswerOf (content_of content.now) query result }
{
    if !can_be_asked(query) {
        return refused(Refusal::BadLine);
    }
    if !has_place(content, query) {
        return refused(Refusal::NoItem);
    }
    Ok(Bytes::from_vec(told(alloc, content, query)?))
}

/// The answer of the layer of a name.
fn answer_named(alloc: Global, station: &Station, name: &Name, query: Query) -> Result<Bytes, Fault>
    ensures { let sheets = station.now.timeline.document in
        IsAnswerAt sheets (place_named name.now sheets) query result }
{
    let Some(place) = station.layer_place(name) else {
        return refused(Refusal::NoLayer);
    };
    let Some(sheet) = station.layer(place) else {
        return refused(Refusal::NoLayer);
    };
    answer_of(alloc, &sheet.content, query)
}

/// Answers a question with a text, a line for each thing that is told, as `specs/Texts.antt` has them. Nothing of the
/// station changes.
///
/// Refused where there is no layer of the name (60), no item, aperture, block or tool at the place (61), or no memory for
/// the text (30), and where no line can say the question, since a coordinate is past 4,000,000,000 nm in absolute value
/// (80). The topmost item at a place off the board is told by no line, as where nothing lies there.
pub fn answer(alloc: Global, station: &Station, question: &Question) -> Result<Bytes, Fault>
    ensures { IsAnswer station.now question.now result }
{
    match question {
        Question::Layers => Ok(Bytes::from_vec(told_layers(alloc, station)?)),
        Question::History => Ok(Bytes::from_vec(told_history(alloc, station)?)),
        Question::OfLayer { name, query } => answer_named(alloc, station, name, *query),
    }
}

/// Answers the question that a line says: as [`answer`], and refused where the line is too long (81) or no question (80).
pub fn ask(alloc: Global, station: &Station, line: &[u8]) -> Result<Bytes, Fault>
    ensures { IsAsked station.now line.now result }
{
    match parse_question(alloc, line) {
        Ok(question) => answer(alloc, station, &question),
        Err(why) => refused(why.refusal()),
    }
}
