//! Definitions of apertures and macros.

ghost use Rattle.std.specs.Prelude.{◌≡◌, ◌∷◌, ◌||◌, is_none, Some, is_some, if◌then◌else◌};
ghost use Rattle.std.specs.List.{before_first};
ghost use Rattle.cam_words.specs.Heads.{packed};
ghost use Rattle.cam_words.specs.Bytes.{is_star};
ghost use Rattle.cam_apertures.specs.Definition.{named};
ghost use Rattle.cam_refusals.specs.Checks.{Checks, least, lower_of};
ghost use Rattle.cam_refusals.specs.Refusals.{number_of};
ghost use Rattle.cam_refusals.specs.declared.refusal.Refusal.{Refusal};
ghost use Rattle.cam_refusals.specs.declared.refusal.Refusal.TheVariants.{NoUnit, Redefined, StrayBlock};
ghost use Rattle.cam_commands.specs.Commands as command;
ghost use Rattle.cam_gerber.specs.State.{Past, in_region, unit_in};
ghost use Rattle.cam_gerber.specs.Faults.{is_reserved, is_taken_again};
ghost use Rattle.cam_gerber.specs.Machinery.Tracking.{HasPast, Obeys, Tracks};

use crate::running::Running;
use cam_apertures::{AdFault, ad_number, parse_ad};
use cam_macros::{Macro, MacroFault};
use cam_objects::Entry;
use cam_refusals::{Refusal, Stop};
use cam_units::Unit;
use cam_words::{len_before, packed};

/// The lower of a fault that is told and of another one, where that holds.
fn lower(fault: Refusal, holds: bool, told: Option<Refusal>) -> Option<Refusal>
    ensures { result ≡ (if holds then Some (lower_of number_of fault told) else told) }
{
    if !holds {
        return told;
    }
    match told {
        None => Some(fault),
        Some(other) => {
            if fault.number() <= other.number() {
                Some(fault)
            } else {
                told
            }
        }
    }
}

/// What stands before the first star.
fn before_star(text: &[u8]) -> &[u8]
    ensures { result.now ≡ before_first is_star text.now }
{
    &text[..len_before(b'*', text)]
}

impl Running {
    /// Whether a macro or a standard template has the name.
    #[tactic(auto, unfolding(crate::specs::Faults::is_reserved))]
    fn is_named(&self, name: &[u8]) -> bool
        ensures { result ≡ (is_some (named self.now.built.macros name.now) || is_reserved name.now) }
    {
        self.built.macros.contains(name)
            || name == b"C".as_slice()
            || name == b"R".as_slice()
            || name == b"O".as_slice()
            || name == b"P".as_slice()
    }

    /// The lower of a definition's fault and of those that the commands before it make.
    fn lowest(&self, number: Option<u32>, told: Option<Refusal>) -> Option<Refusal>
        ensures { (past : Past) (checks : Checks Refusal) → Tracks past self.now → told ≡ least number_of checks
            → result ≡ least number_of ((NoUnit, is_none (unit_in past)) ∷ (Redefined, is_taken_again past number)
            ∷ (StrayBlock, in_region past) ∷ checks) }
    {
        let told = lower(Refusal::StrayBlock, self.region.inside, told);
        let taken = match number {
            None => false,
            Some(number) => self.is_taken(number),
        };
        let told = lower(Refusal::Redefined, taken, told);
        lower(Refusal::NoUnit, self.modal.unit.is_none(), told)
    }

    /// AD: an aperture joins the dictionary.
    pub fn define(&mut self, text: &[u8]) -> Result<(), Stop>
        requires { HasPast self.old }
        ensures { Obeys (command.DefineAperture (packed text.now)) self.old result self.new }
    {
        let unit = self.modal.unit.unwrap_or(Unit::Mm);
        match parse_ad(self.alloc, text, &mut self.built.macros, unit) {
            Err(fault) => match fault {
                AdFault::OutOfMemory => Err(Stop::Memory),
                _ => {
                    let number = ad_number(self.alloc, text)?;
                    let code = fault.refusal();
                    Err(Stop::Fault(self.lowest(number, Some(code)).unwrap_or(code)))
                }
            },
            Ok((number, aperture)) => {
                if let Some(code) = self.lowest(Some(number), None) {
                    return Err(Stop::Fault(code));
                }
                self.built
                    .layer
                    .apertures
                    .push(number, Entry::Aperture(aperture))?;
                Ok(())
            }
        }
    }

    /// AM: a macro joins the others.
    pub fn define_macro(&mut self, text: &[u8]) -> Result<(), Stop>
        requires { HasPast self.old }
        ensures { Obeys (command.DefineMacro (packed text.now)) self.old result self.new }
    {
        match Macro::parse(self.alloc, text) {
            Err(fault) => match fault {
                MacroFault::Malformed => {
                    let text = packed(self.alloc, text)?;
                    if self.is_named(before_star(&text)) {
                        return Err(Stop::Fault(Refusal::Redefined));
                    }
                    if self.region.inside {
                        return Err(Stop::Fault(Refusal::StrayBlock));
                    }
                    Err(Stop::Fault(Refusal::MacroFault))
                }
                MacroFault::BadName => Err(Stop::Fault(Refusal::UnknownCommand)),
                _ => Err(Stop::Memory),
            },
            Ok(made) => {
                if self.is_named(made.name.as_slice()) {
                    return Err(Stop::Fault(Refusal::Redefined));
                }
                if self.region.inside {
                    return Err(Stop::Fault(Refusal::StrayBlock));
                }
                self.built.macros.add(self.alloc, made)?;
                Ok(())
            }
        }
    }
}
