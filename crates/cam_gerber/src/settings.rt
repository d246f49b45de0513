//! Commands that set a value.

ghost use Rattle.std.specs.Prelude.{◌≡◌, ◌≤◌};
ghost use Rattle.cam_commands.specs.Commands as command;
ghost use Rattle.cam_gerber.specs.State.{turn_of_angle};
ghost use Rattle.cam_gerber.specs.Faults.{is_no_quarter};
ghost use Rattle.cam_gerber.specs.Machinery.Tracking.{Takes};

use crate::running::Running;
use cam_commands::{Format, Mirror, Polarity, Style};
use cam_refusals::{Refusal, Stop};
use cam_units::{Turn, Unit};

/// So many 10^-9 of a degree in a quarter turn.
const QUARTER: u64 = 90_000_000_000;

/// So many 10^-9 in 1.
const ONE: i64 = 1_000_000_000;

/// Whether an angle in 10^-9 of a degree is no multiple of 90 degrees.
#[tactic(auto, unfolding(crate::specs::Faults::is_no_quarter))]
fn is_no_quarter(angle: i64) -> bool
    ensures { result ≡ is_no_quarter angle }
{
    angle.unsigned_abs() % QUARTER != 0
}

/// The turn by a multiple of 90 degrees, counterclockwise; R0 for another angle.
#[tactic(auto, unfolding(crate::specs::State::turn_of_angle))]
fn turn_of_angle(angle: i64) -> Turn
    ensures { result ≡ turn_of_angle angle }
{
    let degrees = angle.unsigned_abs();
    if degrees % QUARTER != 0 {
        return Turn::R0;
    }
    let quarters = degrees / QUARTER % 4;
    if quarters == 0 {
        return Turn::R0;
    }
    if quarters == 2 {
        return Turn::R180;
    }
    if (quarters == 1) == (angle > 0) {
        return Turn::R90;
    }
    Turn::R270
}

impl Running {
    /// FS: the format of coordinates.
    pub fn set_format(&mut self, format: Format) -> Result<(), Stop>
        requires { format.decimals ≤ 6 }
        ensures { Takes (command.SetFormat format) self.old result self.new }
    {
        if let Some(set) = self.modal.format {
            if set != format {
                return Err(Stop::Fault(Refusal::SetAgain));
            }
        }
        if self.region.inside {
            return Err(Stop::Fault(Refusal::StrayBlock));
        }
        self.modal.format = Some(format);
        Ok(())
    }

    /// MO, G70 and G71: the unit of lengths.
    pub fn set_unit(&mut self, unit: Unit, style: Style) -> Result<(), Stop>
        ensures { Takes (command.SetUnit unit style) self.old result self.new }
    {
        if let Some(set) = self.modal.unit {
            if set != unit {
                return Err(Stop::Fault(Refusal::SetAgain));
            }
        }
        if style == Style::Extended && self.region.inside {
            return Err(Stop::Fault(Refusal::StrayBlock));
        }
        self.modal.unit = Some(unit);
        Ok(())
    }

    /// LP: whether objects darken.
    pub fn set_polarity(&mut self, polarity: Polarity) -> Result<(), Stop>
        ensures { Takes (command.SetPolarity polarity) self.old result self.new }
    {
        if self.region.inside {
            return Err(Stop::Fault(Refusal::StrayBlock));
        }
        self.modal.dark = matches!(polarity, Polarity::Dark);
        Ok(())
    }

    /// LM: how apertures are mirrored.
    pub fn set_mirror(&mut self, mirror: Mirror) -> Result<(), Stop>
        ensures { Takes (command.SetMirror mirror) self.old result self.new }
    {
        if self.region.inside {
            return Err(Stop::Fault(Refusal::StrayBlock));
        }
        self.modal.mirror = match mirror {
            Mirror::Neither => Turn::R0,
            Mirror::X => Turn::M0,
            Mirror::Y => Turn::M180,
            Mirror::Both => Turn::R180,
        };
        Ok(())
    }

    /// LR: how apertures are rotated, in 10^-9 of a degree.
    pub fn set_rotation(&mut self, angle: Option<i64>) -> Result<(), Stop>
        ensures { Takes (command.SetRotation angle) self.old result self.new }
    {
        let Some(angle) = angle else {
            return Err(Stop::Fault(Refusal::BadNumber));
        };
        if is_no_quarter(angle) {
            return Err(Stop::Fault(Refusal::RotationRefused));
        }
        if self.region.inside {
            return Err(Stop::Fault(Refusal::StrayBlock));
        }
        self.modal.rotation = turn_of_angle(angle);
        Ok(())
    }

    /// LS: how apertures are scaled, in 10^-9; by 1 alone.
    pub fn set_scale(&mut self, scale: Option<i64>) -> Result<(), Stop>
        ensures { Takes (command.SetScale scale) self.old result self.new }
    {
        let Some(scale) = scale else {
            return Err(Stop::Fault(Refusal::BadNumber));
        };
        if scale != ONE {
            return Err(Stop::Fault(Refusal::ScaleRefused));
        }
        if self.region.inside {
            return Err(Stop::Fault(Refusal::StrayBlock));
        }
        Ok(())
    }

    /// A form that says what holds anyway.
    pub fn neutral_old(&mut self) -> Result<(), Stop>
        ensures { Takes command.NeutralOld self.old result self.new }
    {
        if self.region.inside {
            return Err(Stop::Fault(Refusal::StrayBlock));
        }
        Ok(())
    }

    /// An old command that would change the image.
    pub fn refused_old(&mut self, style: Style) -> Result<(), Stop>
        ensures { Takes (command.RefusedOld style) self.old result self.new }
    {
        if style == Style::Extended && self.region.inside {
            return Err(Stop::Fault(Refusal::StrayBlock));
        }
        Err(Stop::Fault(Refusal::OldRefused))
    }

    /// G36: a region begins.
    pub fn begin_region(&mut self) -> Result<(), Stop>
        ensures { Takes command.BeginRegion self.old result self.new }
    {
        if self.region.inside {
            return Err(Stop::Fault(Refusal::StrayBlock));
        }
        self.region.inside = true;
        self.region.start = self.modal.point;
        self.region.segs = Vec::new(self.alloc);
        Ok(())
    }

    /// D with a number from 10: the current aperture.
    pub fn select(&mut self, number: Option<u32>) -> Result<(), Stop>
        ensures { Takes (command.Select number) self.old result self.new }
    {
        let Some(number) = number else {
            return Err(Stop::Fault(Refusal::BadNumber));
        };
        if !self.built.is_defined(number) {
            return Err(Stop::Fault(Refusal::UnknownAperture));
        }
        self.modal.aperture = Some(number);
        Ok(())
    }
}
