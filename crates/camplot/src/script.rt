//! The run of a script, over any files, any standard input and any output.

ghost use Rattle.std.specs.Prelude.{IfErr, IfOk, Err, Ok, string_bytes};
ghost use Rattle.cam_station.specs.Run.{files_seen, moment};
ghost use Rattle.camplot.specs.Disk.{reader_seen};
ghost use Rattle.camplot.specs.Endings.{EndsAs, GivesFile, refused_in};

use crate::ending::Ending;
use crate::options::Call;
use crate::reading::{Counted, read_all};
use cam_refusals::limits::FILE_LIMIT;
use cam_station::{FileFault, Files, Out, Watch, run_watched};
use std::alloc::Global;
use std::io::Read;

/// The bytes of the script at a path; `-` is the standard input.
#[tactic(auto, using(crate::proofs::Faults::no_script))]
fn script_at<F: Files, I: Read>(
    alloc: Global,
    path: &str,
    files: &mut F,
    input: &mut Counted<I>,
) -> Result<Vec<u8>, FileFault>
    ensures ok { IfOk result (λ script. GivesFile path.now (Ok script.items)
        (reader_seen (I.remaining input.old.reader) input.old.failures)
        (reader_seen (I.remaining input.new.reader) input.new.failures)
        (files_seen (F.contents files.old) (F.failed files.old))
        (files_seen (F.contents files.new) (F.failed files.new))) }
    ensures err { IfErr result (λ fault. GivesFile path.now (Err fault)
        (reader_seen (I.remaining input.old.reader) input.old.failures)
        (reader_seen (I.remaining input.new.reader) input.new.failures)
        (files_seen (F.contents files.old) (F.failed files.old))
        (files_seen (F.contents files.new) (F.failed files.new))) }
{
    if path == "-" {
        return match read_all(alloc, input, FILE_LIMIT) {
            Ok(script) => Ok(script),
            Err(fault) => {
                input.why = fault.why("there is none");
                Err(fault.file_fault())
            }
        };
    }
    files.get(alloc, path)
}

/// Runs the script at a path, with an undo depth, as the call says. What watches the run changes nothing of it.
pub fn run_script<F: Files, I: Read, O: Out, V: Watch<F>>(
    alloc: Global,
    call: &Call,
    files: &mut F,
    input: &mut Counted<I>,
    out: &mut O,
    watch: &mut V,
) -> Ending
    ensures { EndsAs result (string_bytes call.now.path) call.now.depth
        (reader_seen (I.remaining input.old.reader) input.old.failures)
        (reader_seen (I.remaining input.new.reader) input.new.failures)
        (moment (F.contents files.old) (F.failed files.old) (O.said out.old) (O.failed out.old) 0)
        (moment (F.contents files.new) (F.failed files.new) (O.said out.new) (O.failed out.new) (refused_in result)) }
{
    let script = match script_at(alloc, call.path.as_str(), files, input) {
        Ok(script) => script,
        Err(fault) => return Ending::Unread(fault),
    };
    match run_watched(alloc, call.depth, script.as_slice(), files, out, watch) {
        Ok(refused) => Ending::Ran(refused),
        Err(fault) => Ending::Stopped(fault),
    }
}
