//! Reads drill layers.

ghost use Rattle.std.specs.Prelude.{◌≡◌, ◌⊎◌, [], Ok, Err, IfOk, IfErr};
ghost use Rattle.cam_objects.specs.DrillSoundness.{IsSoundDrillLayer};
ghost use Rattle.cam_xnc.specs.DrillState.{DrillPast, drill_layer_in};
ghost use Rattle.cam_xnc.specs.Machinery.Tracking.{Tracks};
ghost use Rattle.cam_xnc.specs.Reading.{IsDrillReading, is_end_statement, drill_reading_of};
ghost use Rattle.cam_refusals.specs.FileFaults.{no_memory};

use crate::bytes::{code_of, holds_bad_byte, is_blank, leading_skipped};
use crate::lines::Lines;
use crate::state::DrillState;
use crate::statement::Statement;
use crate::syntax::statement_of;
use cam_objects::DrillLayer;
use cam_refusals::{ReadFault, Refusal, Stop};
use std::alloc::Global;

/// Whether the line is M30.
fn is_last_line(statement: Statement) -> bool
    ensures { result ≡ is_end_statement statement }
{
    matches!(statement, Statement::End)
}

impl DrillState {
    /// Obeys the lines of a file up to its first M30, or tells its first fault. Where memory is refused, the fault is
    /// `NoMemory` at place 0.
    fn read(&mut self, bytes: &[u8]) -> Result<(), ReadFault>
        requires { Tracks [] self.old }
        ensures ends { IfOk result (λ done. (past : DrillPast)
            × Tracks past self.new × (drill_reading_of bytes.now ≡ Ok (drill_layer_in past))) }
        ensures fault { IfErr result (λ fault. (drill_reading_of bytes.now ≡ Err fault) ⊎ (fault ≡ no_memory)) }
    {
        let mut lines = Lines::new(bytes);
        while let Some(line) = lines.next() {
            let code = code_of(line.text);
            if is_blank(code) {
                continue;
            }
            let at = line.at + leading_skipped(code);
            if holds_bad_byte(code) {
                return Err(ReadFault {
                    code: Refusal::BadByte,
                    at,
                });
            }
            let Ok(statement) = statement_of(self.alloc, code) else {
                return Err(ReadFault::NO_MEMORY);
            };
            match self.obey(statement) {
                Ok(()) => {}
                Err(Stop::Memory) => return Err(ReadFault::NO_MEMORY),
                Err(Stop::Fault(code)) => return Err(ReadFault { code, at }),
            }
            if is_last_line(statement) {
                return Ok(());
            }
        }
        Err(ReadFault {
            code: self.end_fault(),
            at: bytes.len(),
        })
    }
}

/// The drill layer of an XNC file up to its first M30, or its first fault: that of the line
/// which stands first, and of several at one line the one with the lowest number. Its place is
/// that of the line's first byte which is not skipped, or the file's length where the end is
/// missing. Where memory is refused, the fault is `NoMemory` at place 0. The layer is sound.
///
/// (XNC Format Specification, "Header", "Drilling" and "Routing".)
pub fn read_xnc(alloc: Global, bytes: &[u8]) -> Result<DrillLayer, ReadFault>
    ensures reads { IsDrillReading bytes.now result }
    ensures sound { IfOk result IsSoundDrillLayer }
{
    let mut state = DrillState::new(alloc);
    let read = state.read(bytes);
    // Before the `?`: a record that an early return drops whole makes the proof dear.
    let layer = state.into_layer();
    read?;
    Ok(layer)
}
