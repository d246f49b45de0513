//! Lines of the header.

ghost use Rattle.std.specs.Prelude.{◌≡◌};
ghost use Rattle.cam_xnc.specs.declared.statement.Statement.TheVariants as statement;
ghost use Rattle.cam_xnc.specs.Faults.{header_checks, is_diameter};
ghost use Rattle.cam_xnc.specs.Machinery.Tracking.{Obeys};

use crate::modes::Part;
use crate::state::DrillState;
use crate::statement::Statement;
use cam_refusals::limits::SIZE_LIMIT;
use cam_refusals::{Refusal, Stop};
use cam_units::{Unit, fix9_nm};

impl DrillState {
    fn set_unit(&mut self, unit: Unit) -> Result<(), Stop>
        ensures { Obeys header_checks (statement.SetUnit unit) self.old result self.new }
    {
        if let Some(set) = self.unit {
            if set != unit {
                return Err(Stop::Fault(Refusal::UnknownLine));
            }
        }
        self.unit = Some(unit);
        Ok(())
    }

    /// Declares a tool of 1 nm to 200 mm.
    #[tactic(auto, unfolding(crate::specs::DrillState::length_nm, crate::specs::Faults::is_diameter))]
    fn declare(&mut self, number: Option<u16>, diameter: Option<i64>) -> Result<(), Stop>
        ensures { Obeys header_checks (statement.Declare number diameter) self.old result self.new }
    {
        let Some(number) = number else {
            return Err(Stop::Fault(Refusal::BadNumber));
        };
        let Some(diameter) = diameter else {
            return Err(Stop::Fault(Refusal::BadNumber));
        };
        let Some(unit) = self.unit else {
            return Err(Stop::Fault(Refusal::NoUnit));
        };
        let diameter = fix9_nm(diameter, unit);
        if diameter.0 < 1 || diameter.0 > SIZE_LIMIT as i64 {
            return Err(Stop::Fault(Refusal::SizeRefused));
        }
        if self.layer.tools.get(number).is_some() {
            return Err(Stop::Fault(Refusal::ToolAgain));
        }
        self.layer.tools.push(number, diameter)?;
        Ok(())
    }

    /// Takes what one more line of the header says.
    pub fn obey_header(&mut self, statement: Statement) -> Result<(), Stop>
        ensures { Obeys header_checks statement self.old result self.new }
    {
        match statement {
            Statement::SetUnit(unit) => self.set_unit(unit),
            Statement::Declare { number, diameter } => self.declare(number, diameter),
            Statement::Neutral => Ok(()),
            Statement::EndHeader => {
                if self.unit.is_none() {
                    return Err(Stop::Fault(Refusal::NoUnit));
                }
                self.part = Part::Body;
                Ok(())
            }
            _ => Err(Stop::Fault(Refusal::UnknownLine)),
        }
    }
}
