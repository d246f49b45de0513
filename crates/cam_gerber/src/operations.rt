//! Operations and regions.

ghost use Rattle.std.specs.Prelude.{false, true};
ghost use Rattle.cam_commands.specs.Commands as command;
ghost use Rattle.cam_commands.specs.declared.parts.OperationCode.TheVariants as code;
ghost use Rattle.cam_gerber.specs.Machinery.Tracking.{EndsContour, Operates, Takes};

use crate::homes::Weight;
use crate::running::Running;
use cam_commands::Operation;
use cam_objects::Object;
use cam_refusals::limits::COUNT_LIMIT;
use cam_refusals::{Refusal, Stop};
use cam_shapes::{Contour, Segments};
use std::mem;

impl Running {
    /// D01 outside a region.
    pub fn stroke(&mut self, operation: &Operation) -> Result<(), Stop>
        ensures { Operates code.Plot false operation.now self.old result self.new }
    {
        let Some(aperture) = self.modal.aperture else {
            return Err(Stop::Fault(Refusal::NoneSelected));
        };
        if !self.built.can_draw(aperture, self.modal.is_arc(operation)) {
            return Err(Stop::Fault(Refusal::WrongAperture));
        }
        let seg = match self.modal.path(operation) {
            Ok(seg) => seg,
            Err(code) => return Err(Stop::Fault(code)),
        };
        if self.is_full(Weight::ONE) {
            return Err(Stop::Fault(Refusal::TooMuch));
        }
        let object = self.modal.stroke(aperture, seg);
        self.keep(object, 1)?;
        self.modal.operated(operation, seg.end());
        Ok(())
    }

    /// D01 in a region.
    pub fn segment(&mut self, operation: &Operation) -> Result<(), Stop>
        ensures { Operates code.Plot true operation.now self.old result self.new }
    {
        let seg = match self.modal.path(operation) {
            Ok(seg) => seg,
            Err(code) => return Err(Stop::Fault(code)),
        };
        if self.region.segs.len() >= COUNT_LIMIT {
            return Err(Stop::Fault(Refusal::TooMuch));
        }
        self.region.segs.push(seg)?;
        self.modal.operated(operation, seg.end());
        Ok(())
    }

    /// D02 outside a region.
    pub fn move_to(&mut self, operation: &Operation) -> Result<(), Stop>
        ensures { Operates code.Move false operation.now self.old result self.new }
    {
        let Some(to) = self.modal.moved_point(operation) else {
            return Err(Stop::Fault(Refusal::OutOfBoard));
        };
        self.modal.operated(operation, to);
        Ok(())
    }

    /// D02 in a region.
    pub fn next_contour(&mut self, operation: &Operation) -> Result<(), Stop>
        ensures { Operates code.Move true operation.now self.old result self.new }
    {
        let Some(to) = self.modal.moved_point(operation) else {
            return Err(Stop::Fault(Refusal::OutOfBoard));
        };
        if let Err(stop) = self.end_contour() {
            return Err(stop);
        }
        self.region.start = to;
        self.modal.operated(operation, to);
        Ok(())
    }

    /// Makes the contour's region, if it has a segment.
    fn end_contour(&mut self) -> Result<(), Stop>
        ensures { EndsContour self.old result self.new }
    {
        if self.region.segs.is_empty() {
            return Ok(());
        }
        if self.is_full(Weight::ONE) {
            return Err(Stop::Fault(Refusal::TooMuch));
        }
        let segs = mem::replace(&mut self.region.segs, Vec::new(self.alloc));
        let contour = Contour {
            start: self.region.start,
            segs: Segments::from_vec(segs),
        };
        let object = Object::Region {
            contour,
            dark: self.modal.dark,
        };
        self.keep(object, 1)?;
        Ok(())
    }

    /// G37: the region ends.
    pub fn end_region(&mut self) -> Result<(), Stop>
        ensures { Takes command.EndRegion self.old result self.new }
    {
        if !self.region.inside {
            return Err(Stop::Fault(Refusal::NotInRegion));
        }
        if let Err(stop) = self.end_contour() {
            return Err(stop);
        }
        self.region.inside = false;
        Ok(())
    }
}
