//! Words: function codes, operations, selections and the end.

ghost use Rattle.std.specs.Prelude.{◌≡◌, IfSome, IsTrue, None};
ghost use Rattle.cam_words.specs.Heads.{packed};
ghost use Rattle.cam_commands.specs.WordCommands.{mode_of, operation_code, selection, has_coordinate, operate};
ghost use Rattle.cam_commands.specs.WordCommands.{by_operation_code, operation_of, operation, prefixed_selection};
ghost use Rattle.cam_commands.specs.WordCommands.{lone_function, function, program_code, by_function, word_command};
ghost use Rattle.cam_commands.specs.Commands.{SetUnit};
ghost use Rattle.cam_commands.specs.declared.parts.Style.TheVariants.{Word};
ghost use Rattle.cam_commands.specs.Fields.{field};
ghost use Rattle.cam_commands.specs.Borrowed.{shown};
ghost use Rattle.cam_commands.specs.Machinery.WordParts.{AreOf, plain_text};
ghost use Rattle.cam_commands.specs.WordCommands.{OperationParts as WordParts};

use crate::command::Command;
use crate::coordinates::{is_there, read_coordinate};
use crate::field::read_field;
use crate::parts::{Mode, Operation, OperationCode, Slot, Style};
use crate::text::is_empty;
use cam_numbers::{Blanks, natural, within_numbers};
use cam_units::Unit;

/// The mode that a G code sets.
#[tactic(auto, unfolding(crate::specs::WordCommands::mode_of))]
fn mode_of(code: u64) -> Option<Mode>
    ensures { result ≡ mode_of code }
{
    match code {
        1 => Some(Mode::Linear),
        2 => Some(Mode::Clockwise),
        3 => Some(Mode::Counterclockwise),
        _ => None,
    }
}

/// The operation of a D code.
#[tactic(auto, unfolding(crate::specs::WordCommands::operation_code))]
fn operation_code(code: u64) -> Option<OperationCode>
    ensures { result ≡ operation_code code }
{
    match code {
        1 => Some(OperationCode::Plot),
        2 => Some(OperationCode::Move),
        3 => Some(OperationCode::Flash),
        _ => None,
    }
}

/// A D code alone that is no operation.
#[tactic(auto, unfolding(crate::specs::WordCommands::selection))]
fn selection(code: u64) -> Command<'static>
    ensures { shown result ≡ selection code }
{
    if code < 10 {
        Command::Unknown
    } else {
        Command::Select(within_numbers(code))
    }
}

/// What the letters of an operation say, and its mode.
#[derive(Clone, Copy)]
struct Parts<'a> {
    mode: Option<Mode>,
    x: Slot<i64>,
    y: Slot<i64>,
    i: Slot<i64>,
    j: Slot<i64>,
    d: Option<&'a [u8]>,
}

fn has_coordinate(parts: Parts<'_>) -> bool
    ensures { (p : WordParts) → AreOf parts.entry p → result ≡ has_coordinate p }
{
    is_there(parts.x) || is_there(parts.y) || is_there(parts.i) || is_there(parts.j)
}

fn operate(parts: Parts<'_>, code: Option<OperationCode>) -> Command<'static>
    ensures { (p : WordParts) → AreOf parts.entry p → shown result ≡ operate p code }
{
    Command::Operate(Operation {
        mode: parts.mode,
        x: parts.x,
        y: parts.y,
        i: parts.i,
        j: parts.j,
        code,
    })
}

/// An operation by its D code; another code selects, where it stands alone.
fn by_operation_code(parts: Parts<'_>, code: u64) -> Command<'static>
    ensures { (p : WordParts) → AreOf parts.entry p → shown result ≡ by_operation_code p code (operation_code code) }
{
    if let Some(named) = operation_code(code) {
        return operate(parts, Some(named));
    }
    if parts.mode.is_some() || has_coordinate(parts) {
        return Command::Unknown;
    }
    selection(code)
}

#[tactic(auto, using(crate::proofs::CodeNumbers::capped), unfolding(crate::specs::WordCommands::operation_of))]
fn operation_of(parts: Parts<'_>) -> Command<'static>
    ensures { (p : WordParts) → AreOf parts.entry p → shown result ≡ operation_of p }
{
    let Some(run) = parts.d else {
        if has_coordinate(parts) {
            return operate(parts, None);
        }
        return Command::Unknown;
    };
    let Some(code) = natural(run, Blanks::Skipped) else {
        return Command::Unknown;
    };
    by_operation_code(parts, code)
}

/// The operation of `D01`, `D02` or `D03`, written so to the end of a word.
fn plain_code(text: &[u8]) -> Option<OperationCode>
    ensures { IfSome result (λ code. text.now ≡ plain_text code) }
{
    if text.len() != 3 || text[0] != b'D' || text[1] != b'0' {
        return None;
    }
    match text[2] {
        b'1' => Some(OperationCode::Plot),
        b'2' => Some(OperationCode::Move),
        b'3' => Some(OperationCode::Flash),
        _ => None,
    }
}

/// `[X..][Y..][I..][J..][D..]`, behind the G code of the mode or without one.
#[tactic(auto, using(crate::proofs::CodeNumbers::capped), unfolding(crate::specs::WordCommands::operation))]
fn operation(mode: Option<Mode>, text: &[u8]) -> Command<'static>
    ensures { shown result ≡ operation mode (packed text.now) }
{
    let x = read_coordinate(b'X', text);
    let y = read_coordinate(b'Y', x.behind);
    // Nearly all operations end here.
    if let Some(code) = plain_code(y.behind) {
        return Command::Operate(Operation {
            mode,
            x: x.slot,
            y: y.slot,
            i: Slot::Omitted,
            j: Slot::Omitted,
            code: Some(code),
        });
    }
    let i = read_coordinate(b'I', y.behind);
    let j = read_coordinate(b'J', i.behind);
    let d = read_field(b'D', j.behind);
    if !is_empty(d.behind) {
        return Command::Unknown;
    }
    operation_of(Parts {
        mode,
        x: x.slot,
        y: y.slot,
        i: i.slot,
        j: j.slot,
        d: d.run,
    })
}

/// What stands behind G54.
#[tactic(auto, using(crate::proofs::CodeNumbers::capped), unfolding(crate::specs::WordCommands::prefixed_selection))]
fn prefixed_selection(text: &[u8]) -> Command<'static>
    ensures { shown result ≡ prefixed_selection (packed text.now) }
{
    let d = read_field(b'D', text);
    if !is_empty(d.behind) {
        return Command::Unknown;
    }
    let Some(run) = d.run else {
        return Command::Unknown;
    };
    let Some(code) = natural(run, Blanks::Skipped) else {
        return Command::Unknown;
    };
    selection(code)
}

/// A G code alone that sets no mode.
#[tactic(auto, unfolding(crate::specs::WordCommands::lone_function))]
fn lone_function(code: u64) -> Command<'static>
    ensures { shown result ≡ lone_function code }
{
    match code {
        36 => Command::BeginRegion,
        37 => Command::EndRegion,
        70 => set_unit(Unit::Inch),
        71 => set_unit(Unit::Mm),
        74 => Command::SingleQuadrant,
        75 => Command::MultiQuadrant,
        90 => Command::Nothing,
        55 | 91 => Command::RefusedOld(Style::Word),
        _ => Command::Unknown,
    }
}

/// G70 and G71.
fn set_unit(unit: Unit) -> Command<'static>
    ensures { shown result ≡ SetUnit unit Word }
{
    Command::SetUnit {
        unit,
        style: Style::Word,
    }
}

/// A G code before the rest of a word.
#[tactic(auto, unfolding(crate::specs::WordCommands::function))]
fn function(code: u64, rest: &[u8]) -> Command<'static>
    ensures { shown result ≡ function (packed rest.now) code }
{
    if let Some(mode) = mode_of(code) {
        if is_empty(rest) {
            return Command::SetMode(mode);
        }
        return operation(Some(mode), rest);
    }
    if code == 54 {
        return prefixed_selection(rest);
    }
    if !is_empty(rest) {
        return Command::Unknown;
    }
    lone_function(code)
}

/// An M code.
#[tactic(auto, unfolding(crate::specs::WordCommands::program_code))]
fn program_code(code: u64) -> Command<'static>
    ensures { shown result ≡ program_code code }
{
    match code {
        2 => Command::End,
        0 | 1 => Command::RefusedOld(Style::Word),
        _ => Command::Unknown,
    }
}

/// A word that does not begin with an M code.
#[tactic(auto, using(crate::proofs::CodeNumbers::capped), unfolding(crate::specs::WordCommands::by_function))]
fn by_function(text: &[u8]) -> Command<'static>
    ensures { shown result ≡ by_function (field 71 (packed text.now)) (packed text.now) }
{
    let g = read_field(b'G', text);
    let Some(run) = g.run else {
        return operation(None, text);
    };
    let Some(code) = natural(run, Blanks::Skipped) else {
        return Command::Unknown;
    };
    function(code, g.behind)
}

/// Whether the word is an operation that begins with X or Y, as nearly all words do.
fn begins_with_axis(text: &[u8]) -> bool
    ensures { IsTrue result → word_command (packed text.now) ≡ operation None (packed text.now) }
{
    if text.is_empty() {
        return false;
    }
    text[0] == b'X' || text[0] == b'Y'
}

/// What a word says.
#[tactic(auto, using(crate::proofs::CodeNumbers::capped), unfolding(crate::specs::WordCommands::word_command))]
pub fn word_command(text: &[u8]) -> Command<'static>
    ensures { shown result ≡ word_command (packed text.now) }
{
    if begins_with_axis(text) {
        return operation(None, text);
    }
    if is_empty(text) {
        return Command::Nothing;
    }
    let m = read_field(b'M', text);
    let Some(run) = m.run else {
        return by_function(text);
    };
    if !is_empty(m.behind) {
        return Command::Unknown;
    }
    let Some(code) = natural(run, Blanks::Skipped) else {
        return Command::Unknown;
    };
    program_code(code)
}
