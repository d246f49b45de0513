//! One more command.

ghost use Rattle.cam_commands.specs.Borrowed.{shown};
ghost use Rattle.cam_gerber.specs.Machinery.Tracking.{HasFewDecimals, HasPast, Obeys};

use crate::running::Running;
use cam_commands::Command;
use cam_refusals::{Refusal, Stop};

impl Running {
    /// Takes one more command; it tells the command's fault of the lowest number, or that memory was refused.
    pub fn obey(&mut self, command: Command<'_>) -> Result<(), Stop>
        requires past { HasPast self.old }
        requires short { HasFewDecimals (shown command) }
        ensures { Obeys (shown command.entry) self.old result self.new }
    {
        match command {
            Command::SetFormat(format) => self.set_format(format),
            Command::RefusedFormat => Err(Stop::Fault(Refusal::FormatRefused)),
            Command::SetUnit { unit, style } => self.set_unit(unit, style),
            Command::DefineAperture(text) => self.define(text),
            Command::DefineMacro(text) => self.define_macro(text),
            Command::SetPolarity(polarity) => self.set_polarity(polarity),
            Command::SetMirror(mirror) => self.set_mirror(mirror),
            Command::SetRotation(angle) => self.set_rotation(angle),
            Command::SetScale(scale) => self.set_scale(scale),
            Command::OpenBlock(number) => self.open_block(number),
            Command::CloseBlock => self.close_block(),
            Command::SetRepeat(repeat) => self.set_repeat(&repeat),
            Command::CloseRepeat => self.close_repeat(),
            Command::KeepText { name, text } => self.keep_text(name, text),
            Command::Nothing => Ok(()),
            Command::NeutralOld => self.neutral_old(),
            Command::RefusedOld(style) => self.refused_old(style),
            Command::SetMode(mode) => {
                self.modal.mode = mode;
                Ok(())
            }
            Command::SingleQuadrant => {
                self.modal.arcs = false;
                Ok(())
            }
            Command::MultiQuadrant => {
                self.modal.arcs = true;
                Ok(())
            }
            Command::BeginRegion => self.begin_region(),
            Command::EndRegion => self.end_region(),
            Command::Select(number) => self.select(number),
            Command::Operate(operation) => self.operate(&operation),
            Command::End => self.end(),
            Command::Unknown => Err(Stop::Fault(Refusal::UnknownCommand)),
        }
    }
}
