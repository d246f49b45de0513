//! Flashes, and what an operation does.

ghost use Rattle.std.specs.Prelude.{◌≡◌, ◌&&◌, IfNone, IfSome, false, is_some, true};
ghost use Rattle.cam_commands.specs.Commands as command;
ghost use Rattle.cam_commands.specs.declared.parts.OperationCode.TheVariants as code;
ghost use Rattle.cam_gerber.specs.Faults.{is_left_out, is_outside_at};
ghost use Rattle.cam_gerber.specs.Homes.{home};
ghost use Rattle.cam_gerber.specs.State.{Past};
ghost use Rattle.cam_gerber.specs.Machinery.WellMade.{IsWellMade};
ghost use Rattle.cam_gerber.specs.Machinery.Tracking.{HasPast, Operates, Takes, TracksPlaces, Weighs};

use crate::checks::is_of_board;
use crate::homes::Weight;
use crate::running::Running;
use crate::state::code_of;
use cam_commands::{Operation, OperationCode};
use cam_objects::Object;
use cam_refusals::{Refusal, Stop};

impl Running {
    /// Whether the next object belongs to a repeat.
    fn is_in_repeat(&self) -> bool
        ensures { result ≡ (is_left_out self.now.frames.blocks.items && is_some self.now.frames.repeat) }
    {
        self.frames.blocks.is_empty() && self.frames.repeat.is_some()
    }

    /// Whether a leaf of the flash lies outside the board; in a repeat that is judged when it is closed.
    fn is_outside_at(&self, object: &Object) -> bool
        requires { IsWellMade self.now.built.layer.apertures object.now }
        ensures { (past : Past) → TracksPlaces past self.now → result ≡ is_outside_at (home past) past object.now }
    {
        if self.is_in_repeat() {
            return false;
        }
        is_of_board(&self.built.layer.apertures.check_object(object))
    }

    /// How much a flash weighs, if no leaf of it lies outside the board.
    fn weight_inside(&self, object: &Object) -> Option<Weight>
        requires { IsWellMade self.now.built.layer.apertures object.now }
        ensures outside { IfNone result ((past : Past) → TracksPlaces past self.now
            → is_outside_at (home past) past object.now ≡ true) }
        ensures inside { IfSome result (λ _. (past : Past) → TracksPlaces past self.now
            → is_outside_at (home past) past object.now ≡ false) }
        ensures weight { IfSome result (λ weight. Weighs weight self.now.built.layer.apertures object.now) }
    {
        // Nearly all flashes are of apertures.
        if self.built.is_of_aperture(object) {
            return Some(Weight::ONE);
        }
        if self.is_outside_at(object) {
            return None;
        }
        Some(Weight {
            leaves: self.built.layer.apertures.leaf_count(object),
            depth: self.built.layer.apertures.depth(object),
        })
    }

    /// D03 outside a region.
    fn flash(&mut self, operation: &Operation) -> Result<(), Stop>
        requires { HasPast self.old }
        ensures { Operates code.Flash false operation.now self.old result self.new }
    {
        let Some(aperture) = self.modal.aperture else {
            return Err(Stop::Fault(Refusal::NoneSelected));
        };
        let Some(at) = self.modal.moved_point(operation) else {
            return Err(Stop::Fault(Refusal::OutOfBoard));
        };
        let object = Object::Flash {
            aperture,
            at,
            turn: self.modal.turn(),
            dark: self.modal.dark,
        };
        let Some(weight) = self.weight_inside(&object) else {
            return Err(Stop::Fault(Refusal::OutOfBoard));
        };
        if self.is_full(weight) {
            return Err(Stop::Fault(Refusal::TooMuch));
        }
        self.keep(object, weight.leaves)?;
        self.modal.operated(operation, at);
        Ok(())
    }

    /// An operation, by what it does and whether it stands in a region.
    pub fn operate(&mut self, operation: &Operation) -> Result<(), Stop>
        requires { HasPast self.old }
        ensures { Takes (command.Operate operation.now) self.old result self.new }
    {
        if let Some(code) = self.modal.leading_fault(operation) {
            return Err(Stop::Fault(code));
        }
        match (code_of(operation), self.region.inside) {
            (OperationCode::Plot, true) => self.segment(operation),
            (OperationCode::Plot, false) => self.stroke(operation),
            (OperationCode::Move, true) => self.next_contour(operation),
            (OperationCode::Move, false) => self.move_to(operation),
            (OperationCode::Flash, true) => Err(Stop::Fault(Refusal::FlashInRegion)),
            (OperationCode::Flash, false) => self.flash(operation),
        }
    }
}
