//! The state of a file, as one pass over its lines keeps it.

ghost use Rattle.std.specs.Prelude.{◌≡◌, [], Some};
ghost use Rattle.cam_xnc.specs.DrillState.{DrillPast};
ghost use Rattle.cam_refusals.specs.Checks.{first_holding};
ghost use Rattle.cam_xnc.specs.Faults.{end_checks, checks};
ghost use Rattle.cam_xnc.specs.Machinery.Tracking.{Obeys, Tracks};

use crate::modes::{Mode, Part};
use crate::statement::Statement;
use cam_objects::DrillLayer;
use cam_refusals::{Refusal, Stop};
use cam_units::{Point, Unit};
use std::alloc::Global;

/// The values in force behind the lines so far, and the layer that they make.
#[derive(Drop)]
pub struct DrillState {
    pub alloc: Global,
    pub part: Part,
    pub unit: Option<Unit>,
    pub mode: Mode,
    /// The number of the tool in force.
    pub tool: Option<u16>,
    /// The last point, in nm.
    pub at: Point,
    /// The points of the open rout.
    pub points: Vec<Point>,
    pub layer: DrillLayer,
    /// How many holes and slots it has.
    pub leaves: usize,
}

impl DrillState {
    /// Nothing is set, the last point is (0, 0), and the layer is empty.
    pub fn new(alloc: Global) -> DrillState
        ensures { Tracks [] result }
    {
        DrillState {
            alloc,
            part: Part::Start,
            unit: None,
            mode: Mode::Drilling,
            tool: None,
            at: Point { x: 0, y: 0 },
            points: Vec::new(alloc),
            layer: DrillLayer::new(alloc),
            leaves: 0,
        }
    }

    /// The layer so far.
    pub fn into_layer(self) -> DrillLayer
        ensures { result ≡ self.layer }
    {
        self.layer
    }

    /// Takes what one more line says; it tells the line's fault of the lowest number, or that
    /// memory was refused.
    pub fn obey(&mut self, statement: Statement) -> Result<(), Stop>
        ensures { Obeys checks statement self.old result self.new }
    {
        match self.part {
            Part::Start => match statement {
                Statement::BeginHeader => {
                    self.part = Part::Header;
                    Ok(())
                }
                _ => Err(Stop::Fault(Refusal::NoHeader)),
            },
            Part::Header => self.obey_header(statement),
            Part::Body => self.obey_body(statement),
        }
    }

    /// The fault of an input that ends here, without M30.
    pub fn end_fault(&self) -> Refusal
        ensures { (past : DrillPast) → Tracks past self.now → first_holding (end_checks past) ≡ Some result }
    {
        match self.part {
            Part::Start => Refusal::NoHeader,
            Part::Header | Part::Body => Refusal::DrillNoEnd,
        }
    }
}
