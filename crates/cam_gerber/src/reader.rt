//! Reads Gerber layers.

ghost use Rattle.std.specs.Prelude.{◌≡◌, [], IfOk};
ghost use Rattle.cam_commands.specs.Borrowed.{shown};
ghost use Rattle.cam_objects.specs.Soundness.{IsSound};
ghost use Rattle.cam_gerber.specs.Reading.{IsReading, is_end_command};
ghost use Rattle.cam_gerber.specs.Machinery.Tracking.{Reads, Tracks};

use crate::running::Running;
use cam_commands::{Command, command_of, start_of};
use cam_objects::Layer;
use cam_refusals::{ReadFault, Refusal, Stop};
use cam_words::Words;
use std::alloc::Global;

/// Whether the command is M02.
fn is_end(command: &Command<'_>) -> bool
    ensures { result ≡ is_end_command (shown command.now) }
{
    matches!(command, Command::End)
}

impl Running {
    /// Obeys the commands of a file up to its first M02, or tells its first fault. Where memory is refused, the fault is
    /// `NoMemory` at place 0.
    fn read(&mut self, bytes: &[u8]) -> Result<(), ReadFault>
        requires { Tracks [] self.old }
        ensures { Reads bytes.now result self.new }
    {
        let mut words = Words::new(bytes);
        while let Some(answer) = words.next() {
            let word = match answer {
                Ok(word) => word,
                Err(fault) => {
                    return Err(ReadFault {
                        code: fault.code,
                        at: fault.at,
                    });
                }
            };
            let command = command_of(word);
            let ends = is_end(&command);
            match self.obey(command) {
                Ok(()) => {}
                Err(Stop::Memory) => return Err(ReadFault::NO_MEMORY),
                Err(Stop::Fault(code)) => {
                    return Err(ReadFault {
                        code,
                        at: start_of(word),
                    });
                }
            }
            if ends {
                return Ok(());
            }
        }
        Err(ReadFault {
            code: Refusal::NoEnd,
            at: bytes.len(),
        })
    }
}

/// The layer of a Gerber file up to its first M02, or its first fault: that of the command which stands
/// first, and of several at one command the one with the lowest number. Where memory is refused, the fault
/// is `NoMemory` at place 0. The layer is sound.
///
/// (Gerber Layer Format Specification, "Syntax", "Graphics state" and "Graphics objects".)
pub fn read_gerber(alloc: Global, bytes: &[u8]) -> Result<Layer, ReadFault>
    ensures reads { IsReading bytes.now result }
    ensures sound { IfOk result IsSound }
{
    let mut running = Running::new(alloc);
    let read = running.read(bytes);
    // Before the `?`: a record that an early return drops whole makes the proof dear.
    let layer = running.into_layer();
    read?;
    Ok(layer)
}
