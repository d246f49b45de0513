//! A macro as a file defines it.

ghost use Rattle.std.specs.Prelude.{◌≡◌, IfOk, IfErr};
ghost use Rattle.cam_macros.specs.Answers.{IsUnlessMemory};
ghost use Rattle.cam_macros.specs.Expansion.{expansion_of};
ghost use Rattle.cam_macros.specs.Reading.{IsMacroReading, IsMacroRefused, is_macro_name};

use crate::expansion::parts::expanded;
use crate::fault::MacroFault;
use crate::parsing::parts::parts_of;
use crate::part::Parts;
use crate::primitive::Prims;
use cam_units::{Items, Unit};
use cam_words::{cut, packed};
use std::alloc::Global;

/// The name of a macro, byte by byte.
pub type Name = Items<u8>;

/// An aperture macro (Gerber Layer Format Specification, "Aperture macro (AM)").
#[derive(Debug, Drop)]
pub struct Macro {
    pub name: Name,
    pub parts: Parts,
}

impl Macro {
    /// The macro of the text behind `AM` of an extended command, without its final `*`.
    ///
    /// `BadName` where the name is none, `Malformed` where a part is outside the grammar
    /// (Gerber Layer Format Specification, "Aperture macro (AM)").
    pub fn parse(alloc: Global, text: &[u8]) -> Result<Macro, MacroFault>
        ensures ok { IfOk result (λ made. IsMacroReading text.now made.name made.parts) }
        ensures fault { IfErr result (IsMacroRefused text.now) }
    {
        let text = packed(alloc, text)?;
        let (name, rest) = cut(text.as_slice(), b'*');
        if !is_macro_name(name) {
            return Err(MacroFault::BadName);
        }
        let bytes = name.to_vec(alloc)?;
        let parts = parts_of(alloc, rest)?;
        Ok(Macro {
            name: Name::from_vec(bytes),
            parts,
        })
    }

    /// The primitives under the parameters of AD, in 10^-9 units.
    ///
    /// Of the first faulty part the first of these: `PrimitiveRefused`, `Malformed`,
    /// `RotationRefused`, `SizeRefused`; `OutOfMemory` may come before.
    pub fn expand(&self, alloc: Global, params: &[i64], unit: Unit) -> Result<Prims, MacroFault>
        ensures ok { IfOk result (λ prims. expansion_of unit params.now self.now.parts ≡ Ok prims) }
        ensures fault { IfErr result (λ fault. IsUnlessMemory fault (expansion_of unit params.now self.now.parts)) }
    {
        expanded(alloc, self.parts.as_slice(), params, unit)
    }
}

fn is_macro_name(name: &[u8]) -> bool
    ensures { result ≡ is_macro_name name.now }
{
    let Some(first) = name.first() else {
        return false;
    };
    !first.is_ascii_digit() && !name.contains(&b',')
}
