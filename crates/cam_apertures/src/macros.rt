//! The macros of a file.

ghost use Rattle.std.specs.Prelude.{◌≡◌, ◌++◌, ◌∷◌, [], None, Some, Ok, IfOk, IfErr, IfSome, OnErr, OnOk, is_some};
ghost use Rattle.std.specs.Map.{lookup};
ghost use Rattle.cam_macros.specs.Expansion.{expansion_of};
ghost use Rattle.cam_apertures.specs.Definition.{named};
ghost use Rattle.cam_apertures.specs.Machinery.Outcomes.{macro_outcome, named_outcome, IsErr};
ghost use Rattle.cam_apertures.specs.Machinery.Macros.{are_equal};

use crate::aperture::Aperture;
use crate::fault::AdFault;
use crate::primitives::Primitives;
use cam_macros::{Macro, Part, Parts, expanded};
use cam_units::Unit;
use indexmap::IndexMap;
use std::alloc::{AllocError, Global};
use std::marker::Model;

/// The macros of a file in the order of their definition, each found by its name, and what was
/// expanded of them, so that equal expansions share their primitives.
#[derive(Drop)]
pub struct Macros {
    /// The parts of each macro under its name.
    parts: IndexMap<Vec<u8>, Parts>,
    expansions: IndexMap<Expanded, Expansion>,
}

/// What is expanded: the macro at a place, under parameters in 10^-9 units.
#[derive(Drop, PartialEq, Eq, Hash)]
struct Expanded {
    place: usize,
    parameters: Vec<i64>,
}

/// What came of it, and the unit of its lengths.
#[derive(Drop)]
struct Expansion {
    unit: Unit,
    primitives: Primitives,
}

impl Model for Macros {
    ghost use Rattle.std.specs.Prelude.{List};
    ghost use Rattle.cam_macros.specs.declared.aperture_macro.Macro.{Macro};

    ghost Value = { List Macro };

    ghost use Rattle.std.specs.Coded.{coded_list};
    ghost use Rattle.cam_macros.specs.contracts.aperture_macro.Macro as of_macro;

    ghost coded = { coded_list of_macro.the_row.coded };

    ghost use Rattle.cam_apertures.specs.Machinery.Macros.{macros_of, AreExpansions};

    ghost view = { λ m. macros_of m.parts.entries };

    ghost invariant = { λ m. AreExpansions m.parts.entries m.expansions.entries };
}

impl Macros {
    /// No macro.
    pub fn new(alloc: Global) -> Macros
        ensures { result ≡ [] }
    {
        Macros {
            parts: IndexMap::new(alloc),
            expansions: IndexMap::new(alloc),
        }
    }

    /// Whether a macro has this name.
    pub fn contains(&self, name: &[u8]) -> bool
        ensures { result ≡ is_some (named self.now name.now) }
    {
        self.parts.get(name).is_some()
    }

    /// Adds a macro of another name behind the others; refused for want of memory alone.
    pub fn add(&mut self, alloc: Global, added: Macro) -> Result<(), AllocError>
        requires { named self.old added.name ≡ None }
        ensures ok { OnOk result (self.new ≡ self.old ++ added ∷ []) }
        ensures err { OnErr result (self.new ≡ self.old) }
    {
        let Macro { name, parts } = added;
        match self.parts.insert(name.into_vec(), parts) {
            Ok(_) => Ok(()),
            Err(_) => Err(AllocError),
        }
    }

    /// The aperture that the macro of this name makes of the parameters, in 10^-9 units. What was
    /// made before of the same macro and parameters is shared.
    pub(crate) fn expand(
        &mut self,
        alloc: Global,
        name: &[u8],
        unit: Unit,
        parameters: Vec<i64>,
    ) -> Result<Aperture, AdFault>
        ensures ok { IfOk result (λ a. named_outcome name.now self.old unit parameters.items ≡ Ok a) }
        ensures fault { IfErr result (λ f. IsErr f (named_outcome name.now self.old unit parameters.items)) }
        ensures macros { self.new ≡ self.old }
    {
        let Some((place, _, parts)) = self.parts.get_full(name) else {
            return Err(AdFault::TemplateRefused);
        };
        let wanted = Expanded { place, parameters };
        if let Some(found) = found_again(&self.expansions, &wanted, unit) {
            return Ok(Aperture::Prims(found.clone()?));
        }
        let primitives = primitives(alloc, parts.as_slice(), &wanted.parameters, unit)?;
        let shared = primitives.clone()?;
        self.expansions.insert(
            wanted,
            Expansion {
                unit,
                primitives: shared,
            },
        )?;
        Ok(Aperture::Prims(primitives))
    }
}

/// What was made before of the same macro and parameters, in the same unit.
fn found_again<'a>(
    expansions: &'a IndexMap<Expanded, Expansion>,
    wanted: &Expanded,
    unit: Unit,
) -> Option<&'a Primitives>
    ensures { IfSome result (λ found. lookup (are_equal wanted.now) expansions.now.entries
        ≡ Some (record { unit = unit; primitives = found.now })) }
{
    let found = expansions.get(wanted)?;
    if found.unit == unit {
        Some(&found.primitives)
    } else {
        None
    }
}

/// The primitives that the parts of a macro make of the parameters.
fn primitives(
    alloc: Global,
    parts: &[Part],
    parameters: &[i64],
    unit: Unit,
) -> Result<Primitives, AdFault>
    ensures ok { IfOk result (λ made. expansion_of unit parameters.now parts.now ≡ Ok made) }
    ensures fault { IfErr result (λ f. IsErr f (macro_outcome (expansion_of unit parameters.now parts.now))) }
{
    let prims = expanded(alloc, parts, parameters, unit)?;
    Ok(Primitives::from_prims(alloc, prims)?)
}
