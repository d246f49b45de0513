//! Laws of the definition of a run.

ghost use Rattle.cam_station.specs.FilesPut.{ExactFiles};
ghost use Rattle.cam_station.specs.RunLaws.{FewFileRefusals, RunIsCommands};

/// No more lines are refused 82 than the failures of files rose by, unless these end at the
/// greatest count.
pub fn few_file_refusals()
    ensures { FewFileRefusals }
{}

/// A run over bytes is a run of the machine over its commands: the last state, what each line
/// asks of the files and is answered, and how many lines are refused are told by the machine.
pub fn run_is_commands()
    ensures { RunIsCommands }
{}

/// In a run of a script each file that is put for a `plot` line is the picture of its layer in the state of that line,
/// and each that is put for a `write` line its canonical text; no other line puts a file.
pub fn files_are_exact()
    ensures { ExactFiles }
{}
