//! Primitives from the parts, one after another.

ghost use Rattle.std.specs.Prelude.{◌≡◌, ℕ, Ok, OnOk, IfOk, IfErr};
ghost use Rattle.cam_macros.specs.Answers.{IsUnlessMemory};
ghost use Rattle.cam_macros.specs.Expansion.{primitive_of, primitive_made};
ghost use Rattle.cam_macros.specs.Expansion.{expansion_of, outcome, values_after, with_prims};
ghost use Rattle.cam_macros.specs.Machinery.Variables.{looked_up};

use crate::expansion::shapes::{bar, disc, outline, rect};
use crate::expansion::variables::Variables;
use crate::fault::MacroFault;
use crate::fields::Fields;
use crate::part::Part;
use crate::primitive::{MacroPrimitive, Prims};
use cam_units::Unit;
use std::alloc::Global;

/// The primitive of this code; `PrimitiveRefused` where there is none.
fn primitive(
    alloc: Global,
    code: u32,
    fields: &Fields,
    variables: &Variables<'_>,
    unit: Unit,
) -> Result<MacroPrimitive, MacroFault>
    ensures ok { IfOk result (λ prim.
        primitive_of (primitive_made code) unit (looked_up variables.now) fields.now ≡ Ok prim) }
    ensures fault { IfErr result (λ fault.
        IsUnlessMemory fault (primitive_of (primitive_made code) unit (looked_up variables.now) fields.now)) }
{
    if !matches!(code, 1 | 2 | 4 | 20 | 21) {
        return Err(MacroFault::PrimitiveRefused);
    }
    let values = fields.values(alloc, variables)?;
    match code {
        1 => disc(unit, values.as_slice()),
        4 => outline(alloc, unit, values.as_slice()),
        21 => rect(unit, values.as_slice()),
        _ => bar(unit, values.as_slice()),
    }
}

impl Part {
    /// Adds what the part makes, and sets what it sets.
    fn expand(
        &self,
        alloc: Global,
        variables: &mut Variables<'_>,
        unit: Unit,
        prims: &mut Vec<MacroPrimitive>,
    ) -> Result<(), MacroFault>
        ensures made { OnOk result
            (with_prims prims.old.items (outcome unit (looked_up variables.old) self.now) ≡ Ok prims.new.items) }
        ensures values { OnOk result
            ((n : ℕ) → looked_up variables.new n ≡ values_after (looked_up variables.old) self.now n) }
        ensures fault { IfErr result (λ fault.
            IsUnlessMemory fault (outcome unit (looked_up variables.old) self.now)) }
    {
        match self {
            Part::Assignment { variable, value } => {
                let value = value.value(alloc, variables)?;
                variables.set(*variable, value)?;
            }
            Part::Primitive { code, fields } => {
                prims.push(primitive(alloc, *code, fields, variables, unit)?)?;
            }
        }
        Ok(())
    }
}

/// The primitives of the parts in order under the parameters of AD, in 10^-9 units.
///
/// Of the first faulty part the first of these: `PrimitiveRefused`, `Malformed`,
/// `RotationRefused`, `SizeRefused`; `OutOfMemory` may come before.
pub fn expanded(
    alloc: Global,
    parts: &[Part],
    params: &[i64],
    unit: Unit,
) -> Result<Prims, MacroFault>
    ensures ok { IfOk result (λ prims. expansion_of unit params.now parts.now ≡ Ok prims) }
    ensures fault { IfErr result (λ fault. IsUnlessMemory fault (expansion_of unit params.now parts.now)) }
{
    let mut variables = Variables::new(alloc, params);
    let mut prims = Vec::new(alloc);
    for part in parts {
        part.expand(alloc, &mut variables, unit, &mut prims)?;
    }
    Ok(Prims::from_vec(prims))
}
