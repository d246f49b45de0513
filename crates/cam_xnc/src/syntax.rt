//! What the lines of a file say.

ghost use Rattle.std.specs.Prelude.{◌≡◌, length, IfOk};
ghost use Rattle.std.specs.Option.{option_copied};
ghost use Rattle.cam_xnc.specs.Bytes.{line_packed};
ghost use Rattle.cam_xnc.specs.Syntax.{line_field, coordinate, coordinates_of, tool_by, tool_statement};
ghost use Rattle.cam_xnc.specs.Syntax.{begins_with_code, rout_statement, other_statement, slot_statement, statement_of};

use crate::bytes::{holds_skipped, pack};
use crate::numbers::{declared_tool, is_pointed, is_whole, selected_tool};
use crate::statement::{Coordinate, Statement};
use cam_numbers::{Blanks, decimal, run_len};
use cam_units::Unit;
use cam_words::len_before;
use std::alloc::{AllocError, Global};

/// A letter's run of digits, signs and points, where the letter stands at the front of a
/// text, and what follows.
#[derive(Clone, Copy)]
struct Field<'a> {
    run: Option<&'a [u8]>,
    behind: &'a [u8],
}

#[tactic(auto, unfolding(crate::specs::Syntax::line_field))]
fn read_field<'a>(letter: u8, text: &'a [u8]) -> Field<'a>
    ensures run { option_copied result.run ≡ (line_field letter text.now).0 }
    ensures behind { result.behind.now ≡ (line_field letter text.now).1 }
{
    match text {
        [first, rest @ ..] if *first == letter => {
            let (run, behind) = rest.split_at(run_len(rest));
            Field {
                run: Some(run),
                behind,
            }
        }
        _ => Field {
            run: None,
            behind: text,
        },
    }
}

/// What a line says of X or of Y.
#[tactic(auto, unfolding(crate::specs::Syntax::coordinate))]
fn coordinate(run: Option<&[u8]>) -> Coordinate
    ensures { result ≡ coordinate (option_copied run.entry) }
{
    let Some(run) = run else {
        return Coordinate::Omitted;
    };
    if is_pointed(run) {
        return match decimal(run, Blanks::Refused) {
            None => Coordinate::Malformed,
            Some(n) => Coordinate::Written(n),
        };
    }
    if is_whole(run) {
        Coordinate::Pointless
    } else {
        Coordinate::Malformed
    }
}

/// `X..Y..` and nothing else, one of them perhaps missing; `None` of any other text.
#[tactic(auto, unfolding(crate::specs::Syntax::coordinates_of))]
fn coordinates(text: &[u8]) -> Option<(Coordinate, Coordinate)>
    ensures { result ≡ coordinates_of text.now }
{
    let x = read_field(b'X', text);
    let y = read_field(b'Y', x.behind);
    if !y.behind.is_empty() || (x.run.is_none() && y.run.is_none()) {
        return None;
    }
    Some((coordinate(x.run), coordinate(y.run)))
}

/// `X..Y..G85X..Y..`, of each half X or Y perhaps missing.
#[tactic(auto, unfolding(crate::specs::Syntax::slot_statement))]
fn slot_statement(text: &[u8]) -> Statement
    ensures { result ≡ slot_statement text.now }
{
    let (start, behind) = text.split_at(len_before(b'G', text));
    if !behind.starts_with(b"G85") {
        return Statement::Unknown;
    }
    let Some((start_x, start_y)) = coordinates(start) else {
        return Statement::Unknown;
    };
    let Some((end_x, end_y)) = coordinates(&behind[3..]) else {
        return Statement::Unknown;
    };
    Statement::Slot {
        start_x,
        start_y,
        end_x,
        end_y,
    }
}

/// What stands behind T: the number of a tool, and in its declaration C and its diameter.
#[tactic(auto, unfolding(crate::specs::Syntax::tool_statement, crate::specs::Syntax::tool_by))]
fn tool_statement(text: &[u8]) -> Statement
    ensures { result ≡ tool_statement text.now }
{
    let (number, behind) = text.split_at(run_len(text));
    match behind {
        [] => Statement::Select(selected_tool(number)),
        [b'C', size @ ..] if run_len(size) == size.len() => Statement::Declare {
            number: declared_tool(number),
            diameter: decimal(size, Blanks::Refused),
        },
        _ => Statement::Unknown,
    }
}

/// Whether the text begins with the code, and no further digit.
fn begins_with_code(text: &[u8], code: &[u8]) -> bool
    requires { length code.now ≡ 3 }
    ensures { result ≡ begins_with_code code.now text.now }
{
    if !text.starts_with(code) {
        return false;
    }
    match &text[3..] {
        [] => true,
        [next, ..] => !next.is_ascii_digit(),
    }
}

/// A line of a rout, `G00` to `G03`.
#[tactic(auto, unfolding(crate::specs::Syntax::rout_statement))]
fn rout_statement(text: &[u8]) -> Statement
    ensures { result ≡ rout_statement text.now }
{
    if text.starts_with(b"G00") {
        return match coordinates(&text[3..]) {
            Some((x, y)) => Statement::RoutTo { x, y },
            None => Statement::Unknown,
        };
    }
    if text.starts_with(b"G01") {
        return match coordinates(&text[3..]) {
            Some((x, y)) => Statement::CutTo { x, y },
            None => Statement::Unknown,
        };
    }
    if begins_with_code(text, b"G02") || begins_with_code(text, b"G03") {
        return Statement::CutArc;
    }
    Statement::Unknown
}

/// A line that begins neither with a coordinate nor with a tool.
#[tactic(auto, unfolding(crate::specs::Syntax::other_statement))]
fn other_statement(text: &[u8]) -> Statement
    ensures { result ≡ other_statement text.now }
{
    if text == b"FMAT,2".as_slice() || text == b"G90".as_slice() {
        Statement::Neutral
    } else if text == b"G05".as_slice() {
        Statement::DrillMode
    } else if text == b"M15".as_slice() {
        Statement::Lower
    } else if text == b"M16".as_slice() {
        Statement::Raise
    } else if text == b"M30".as_slice() {
        Statement::End
    } else if text == b"M48".as_slice() {
        Statement::BeginHeader
    } else if text == b"METRIC".as_slice()
        || text == b"METRIC,LZ".as_slice()
        || text == b"METRIC,TZ".as_slice()
    {
        Statement::SetUnit(Unit::Mm)
    } else if text == b"INCH".as_slice()
        || text == b"INCH,LZ".as_slice()
        || text == b"INCH,TZ".as_slice()
    {
        Statement::SetUnit(Unit::Inch)
    } else if text == b"%".as_slice() {
        Statement::EndHeader
    } else {
        rout_statement(text)
    }
}

/// What a packed line says.
#[tactic(auto, unfolding(crate::specs::Syntax::statement_of))]
fn packed_statement(text: &[u8]) -> Statement
    ensures { result ≡ statement_of text.now }
{
    match text {
        [] => Statement::Unknown,
        [b'X' | b'Y', ..] => match coordinates(text) {
            Some((x, y)) => Statement::HitAt { x, y },
            None => slot_statement(text),
        },
        [b'T', rest @ ..] => tool_statement(rest),
        _ => other_statement(text),
    }
}

/// What a line without its comment says. Takes memory only where it holds skipped bytes.
#[tactic(auto, using(crate::proofs::Packing::packed_whole))]
pub fn statement_of(alloc: Global, code: &[u8]) -> Result<Statement, AllocError>
    ensures { IfOk result (λ statement. statement ≡ statement_of (line_packed code.now)) }
{
    if !holds_skipped(code) {
        return Ok(packed_statement(code));
    }
    Ok(packed_statement(pack(alloc, code)?.as_slice()))
}
