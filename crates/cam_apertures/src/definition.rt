//! Aperture definitions.

ghost use Rattle.std.specs.Prelude.{◌≡◌, ◌≤◌, ◌<◌, ◌==◌, ◌∷◌, [], IfOk, IfErr, MatchOption, length, ok_or};
ghost use Rattle.std.specs.Char.{is_ascii_digit};
ghost use Rattle.std.specs.List.{before_first, list_all, position_or_len, prefix_len, slice_split};
ghost use Rattle.std.specs.Option.{option_copied};
ghost use Rattle.cam_apertures.specs.Definition.{are_runs, behind_comma, definition, template_form, is_comma};
ghost use Rattle.cam_apertures.specs.Definition.{is_of_runs, length_at, numbered, parameters_of};
ghost use Rattle.cam_apertures.specs.Definition.{values_of, with_number, IsDefined, IsDefinitionRefused};
ghost use Rattle.cam_apertures.specs.declared.fault.AdFault.TheVariants.{BadNumber};
ghost use Rattle.cam_apertures.specs.Machinery.Outcomes.{outcome, standard_outcome, template_outcome};
ghost use Rattle.cam_apertures.specs.Machinery.Outcomes.{IsErr};

use crate::aperture::Aperture;
use crate::fault::AdFault;
use crate::macros::Macros;
use cam_numbers::{Blanks, decimal, defined_number, is_numeric};
use cam_units::{Nm, Unit, fix9_nm};
use cam_words::{cut, packed};
use std::alloc::{AllocError, Global};

/// The aperture that the text behind `AD` of an extended command defines, without its final `*`,
/// and its number. Bytes that are skipped do not count.
///
/// The form is `D`, a number, a name and, behind a comma, parameters between `X`: `C,d[Xhole]`,
/// `R,xXy[Xhole]`, `O,xXy[Xhole]`, or the name of one of the macros and its parameters (Gerber
/// Layer Format Specification, "Aperture definition (AD)"). The number is the digits behind `D`, and
/// the name begins with the byte behind them, which may be a point or a sign. The fault is the one
/// of least number; `OutOfMemory` may come before. Equal expansions of a macro share their primitives.
pub fn parse_ad(
    alloc: Global,
    text: &[u8],
    macros: &mut Macros,
    unit: Unit,
) -> Result<(u32, Aperture), AdFault>
    ensures ok { IfOk result (λ made. IsDefined text.now macros.old unit made.0 made.1) }
    ensures fault { IfErr result (IsDefinitionRefused text.now macros.old unit) }
    ensures macros { macros.new ≡ macros.old }
{
    let text = packed(alloc, text)?;
    defined(alloc, text.as_slice(), macros, unit)
}

/// The number of the aperture that the text behind `AD` would define; `None` where its form or its
/// number is wrong. An error where no memory is left to read it.
pub fn ad_number(alloc: Global, text: &[u8]) -> Result<Option<u32>, AllocError>
    ensures { IfOk result (λ number. number ≡ numbered (template_form text.now)) }
{
    let text = packed(alloc, text)?;
    let Some(definition) = Definition::read(text.as_slice()) else {
        return Ok(None);
    };
    Ok(defined_number(definition.number, Blanks::Refused))
}

/// What a definition says.
#[derive(Clone, Copy)]
struct Definition<'a> {
    number: &'a [u8],
    name: &'a [u8],
    parameters: Option<&'a [u8]>,
}

impl<'a> Definition<'a> {
    /// The definition of a text without the bytes that do not count.
    #[tactic(auto, unfolding(crate::specs::Definition::definition))]
    fn read(text: &'a [u8]) -> Option<Definition<'a>>
        ensures { MatchOption result
            (definition text.now ≡ None)
            (λ d. definition text.now ≡ Some (record {
              number = d.number.now;
              name = d.name.now;
              parameters = parameters_of (option_copied d.parameters);
            })) }
    {
        match text {
            [b'D', rest @ ..] => {
                let (number, behind) = rest.split_at(digit_count(rest));
                Definition::with_number(number, behind)
            }
            _ => None,
        }
    }

    /// The definition of this number by what stands behind the number.
    #[tactic(auto, unfolding(crate::specs::Definition::with_number))]
    fn with_number(number: &'a [u8], text: &'a [u8]) -> Option<Definition<'a>>
        ensures { MatchOption result
            (with_number number.now text.now ≡ None)
            (λ d. with_number number.now text.now ≡ Some (record {
              number = d.number.now;
              name = d.name.now;
              parameters = parameters_of (option_copied d.parameters);
            })) }
    {
        let (name, parameters) = at_comma(text);
        if name.is_empty() {
            return None;
        }
        if !are_runs(parameters) {
            return None;
        }
        Some(Definition {
            number,
            name,
            parameters,
        })
    }
}

/// How many digits the text begins with.
fn digit_count(text: &[u8]) -> usize
    ensures value { result ≡ prefix_len is_ascii_digit text.now }
    ensures within { result ≤ length text.now }
{
    text.iter().take_while(|byte| byte.is_ascii_digit()).count()
}

/// Where the first comma stands, or the text's length.
fn comma_place(text: &[u8]) -> usize
    ensures value { result ≡ position_or_len is_comma text.now }
    ensures within { result ≤ length text.now }
{
    text.iter().take_while(|byte| **byte != b',').count()
}

/// What stands before the first comma, and behind it.
#[tactic(auto, unfolding(crate::specs::Definition::behind_comma))]
fn at_comma(text: &[u8]) -> (&[u8], Option<&[u8]>)
    ensures name { result.0.now ≡ before_first is_comma text.now }
    ensures parameters { option_copied result.1 ≡ behind_comma text.now }
{
    let place = comma_place(text);
    let name = &text[..place];
    if place < text.len() {
        (name, Some(&text[place + 1..]))
    } else {
        (name, None)
    }
}

/// Whether parameters are made of digits, signs, points and what stands between them.
#[tactic(auto, unfolding(crate::specs::Definition::are_runs))]
fn are_runs(parameters: Option<&[u8]>) -> bool
    ensures { result ≡ are_runs (option_copied parameters.entry) }
{
    match parameters {
        None => true,
        Some(text) => are_all_of_runs(text),
    }
}

fn are_all_of_runs(text: &[u8]) -> bool
    ensures { result ≡ list_all is_of_runs text.now }
{
    text.iter().copied().all(is_of_runs)
}

#[tactic(auto, unfolding(crate::specs::Definition::is_of_runs))]
fn is_of_runs(byte: u8) -> bool
    ensures { result ≡ is_of_runs byte }
{
    is_numeric(byte) || byte == b'X'
}

/// The values of the parameters in 10^-9 units.
fn values(alloc: Global, parameters: Option<&[u8]>) -> Result<Vec<i64>, AdFault>
    ensures ok { IfOk result
        (λ values. values_of (parameters_of (option_copied parameters.entry)) ≡ Some values.items) }
    ensures fault { IfErr result
        (λ fault. IsErr fault (ok_or (values_of (parameters_of (option_copied parameters.entry))) BadNumber)) }
{
    let mut values = Vec::new(alloc);
    let mut rest = parameters;
    while let Some(text) = rest {
        let (run, more) = cut(text, b'X');
        let Some(value) = decimal(run, Blanks::Refused) else {
            return Err(AdFault::BadNumber);
        };
        values.push(value)?;
        rest = more;
    }
    Ok(values)
}

/// The length of a parameter; 0 for one that is left out.
fn length_at(unit: Unit, values: &[i64], k: usize) -> Nm
    ensures { result ≡ length_at unit values.now k }
{
    fix9_nm(values.get(k).copied().unwrap_or(0), unit)
}

/// A standard aperture, if it has the parameters that it needs, at most one more, and sizes within
/// the limits.
#[tactic(auto, unfolding(crate::specs::Machinery::Outcomes::standard_outcome))]
fn standard(fewest: usize, count: usize, aperture: Aperture) -> Result<Aperture, AdFault>
    requires { fewest ≤ 2 }
    ensures { result ≡ standard_outcome fewest count aperture }
{
    if count < fewest {
        return Err(AdFault::BadNumber);
    }
    if count > fewest + 1 {
        return Err(AdFault::TemplateRefused);
    }
    if !aperture.is_sound() {
        return Err(AdFault::SizeRefused);
    }
    Ok(aperture)
}

/// The aperture that the template of this name makes of the parameters.
#[tactic(auto, unfolding(crate::specs::Machinery::Outcomes::template_outcome))]
fn template(
    alloc: Global,
    name: &[u8],
    macros: &mut Macros,
    unit: Unit,
    values: Vec<i64>,
) -> Result<Aperture, AdFault>
    ensures ok { IfOk result (λ a. template_outcome name.now macros.old unit values.items ≡ Ok a) }
    ensures fault { IfErr result (λ f. IsErr f (template_outcome name.now macros.old unit values.items)) }
    ensures macros { macros.new ≡ macros.old }
{
    if name == b"C".as_slice() {
        let circle = Aperture::Circle {
            diameter: length_at(unit, &values, 0),
            hole: length_at(unit, &values, 1),
        };
        return standard(1, values.len(), circle);
    }
    if name == b"R".as_slice() {
        let rect = Aperture::Rect {
            width: length_at(unit, &values, 0),
            height: length_at(unit, &values, 1),
            hole: length_at(unit, &values, 2),
        };
        return standard(2, values.len(), rect);
    }
    if name == b"O".as_slice() {
        let obround = Aperture::Obround {
            width: length_at(unit, &values, 0),
            height: length_at(unit, &values, 1),
            hole: length_at(unit, &values, 2),
        };
        return standard(2, values.len(), obround);
    }
    if name == b"P".as_slice() {
        return Err(AdFault::TemplateRefused);
    }
    macros.expand(alloc, name, unit, values)
}

/// The aperture that a text without the bytes that do not count defines, and its number.
#[tactic(auto, unfolding(crate::specs::Machinery::Outcomes::outcome))]
fn defined(
    alloc: Global,
    text: &[u8],
    macros: &mut Macros,
    unit: Unit,
) -> Result<(u32, Aperture), AdFault>
    ensures ok { IfOk result (λ made. outcome (definition text.now) macros.old unit ≡ Ok made) }
    ensures fault { IfErr result (λ f. IsErr f (outcome (definition text.now) macros.old unit)) }
    ensures macros { macros.new ≡ macros.old }
{
    let Some(definition) = Definition::read(text) else {
        return Err(AdFault::UnknownForm);
    };
    let Some(number) = defined_number(definition.number, Blanks::Refused) else {
        return Err(AdFault::BadNumber);
    };
    let values = values(alloc, definition.parameters)?;
    let aperture = template(alloc, definition.name, macros, unit, values)?;
    Ok((number, aperture))
}
