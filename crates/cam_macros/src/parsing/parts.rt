//! Parts from their texts.

ghost use Rattle.std.specs.Prelude.{◌≡◌, ◌∷◌, ℕ, IfOk, IfErr};
ghost use Rattle.cam_words.specs.Bytes.{star};
ghost use Rattle.cam_macros.specs.Answers.{IsMalformed, Nothing};
ghost use Rattle.cam_macros.specs.Bytes.{comma_sign, dollar};
ghost use Rattle.cam_macros.specs.Reading.{AreExpressions, AreParts, IsAssignment, IsPart, IsPrimitive};
ghost use Rattle.cam_macros.specs.Reading.{is_silent, pieces_between, parts_spoken};

use crate::expression::Expression;
use crate::fault::MacroFault;
use crate::fields::Fields;
use crate::parsing::variables::variable;
use crate::part::{Part, Parts};
use cam_numbers::{Blanks, natural};
use cam_words::cut;
use std::alloc::Global;

/// The expressions of the texts between commas; `Malformed` where one is outside the grammar.
fn fields_of(alloc: Global, texts: Option<&[u8]>) -> Result<Fields, MacroFault>
    ensures ok { IfOk result (AreExpressions (pieces_between comma_sign texts.entry)) }
    ensures fault { IfErr result (λ fault.
        IsMalformed fault (Nothing (AreExpressions (pieces_between comma_sign texts.entry)))) }
{
    let mut fields = Fields::new(alloc);
    let mut rest = texts;
    while let Some(texts) = rest {
        let (text, more) = cut(texts, b',');
        fields.push(Expression::parse(alloc, text)?)?;
        rest = more;
    }
    fields.shrink();
    Ok(fields)
}

impl Part {
    /// The primitive of a code and its fields.
    fn primitive(alloc: Global, piece: &[u8]) -> Result<Part, MacroFault>
        ensures ok { IfOk result (IsPart piece.now) }
        ensures fault { IfErr result (λ fault.
            IsMalformed fault ((code : ℕ) → Nothing (IsPrimitive piece.now code))) }
    {
        let (digits, texts) = cut(piece, b',');
        let Some(code) = natural(digits, Blanks::Refused) else {
            return Err(MacroFault::Malformed);
        };
        let fields = fields_of(alloc, texts)?;
        Ok(Part::Primitive {
            code: code.min(10_000) as u32,
            fields,
        })
    }

    /// The assignment of which this stands behind `$`.
    fn assignment(alloc: Global, piece: &[u8]) -> Result<Part, MacroFault>
        ensures ok { IfOk result (IsPart (dollar ∷ piece.now)) }
        ensures fault { IfErr result (λ fault.
            IsMalformed fault ((variable : ℕ) → Nothing (IsAssignment (dollar ∷ piece.now) variable))) }
    {
        let (digits, text) = cut(piece, b'=');
        let Some(text) = text else {
            return Err(MacroFault::Malformed);
        };
        let Some(variable) = variable(digits) else {
            return Err(MacroFault::Malformed);
        };
        let read = Expression::parse(alloc, text)?;
        // Room that a list gives back lies between lists that stay, and serves no longer one.
        let value = read.in_exact_room(alloc)?;
        Ok(Part::Assignment { variable, value })
    }

    /// The part of a text without the bytes that do not count; `Malformed` where it is
    /// outside the grammar.
    fn parse(alloc: Global, piece: &[u8]) -> Result<Part, MacroFault>
        ensures ok { IfOk result (IsPart piece.now) }
        ensures fault { IfErr result (λ fault. IsMalformed fault (Nothing (IsPart piece.now))) }
    {
        match piece {
            [b'$', behind @ ..] => Part::assignment(alloc, behind),
            _ => Part::primitive(alloc, piece),
        }
    }
}

/// The parts of the texts between stars, of which empty ones and comments are none.
pub(crate) fn parts_of(alloc: Global, texts: Option<&[u8]>) -> Result<Parts, MacroFault>
    ensures ok { IfOk result (AreParts (parts_spoken (pieces_between star texts.entry))) }
    ensures fault { IfErr result (λ fault.
        IsMalformed fault (Nothing (AreParts (parts_spoken (pieces_between star texts.entry))))) }
{
    let mut items = Vec::new(alloc);
    let mut rest = texts;
    while let Some(text) = rest {
        let (piece, more) = cut(text, b'*');
        rest = more;
        if !is_silent(piece) {
            items.push(Part::parse(alloc, piece)?)?;
        }
    }
    Ok(Parts::from_vec(items))
}

/// Whether a piece is empty or a comment.
fn is_silent(piece: &[u8]) -> bool
    ensures { result ≡ is_silent piece.now }
{
    match piece.first() {
        Some(byte) => *byte == b'0',
        None => true,
    }
}
