//! How a run of a script ends, and what the program tells of it.

ghost use Rattle.std.specs.Prelude.{◌≡◌};
ghost use Rattle.camplot.specs.Endings.{outcome_status, status_of};

use cam_station::{FileFault, RunFault};

/// How a run of a script ended.
#[derive(Drop)]
pub enum Ending {
    /// All its lines were run, and so many of them refused.
    Ran(u64),
    /// Its bytes were not read.
    Unread(FileFault),
    /// The run did not come to its end.
    Stopped(RunFault),
}

impl Ending {
    /// The exit status: 0 where no line was refused, 1 where some line was, and 2 where the script was not read or not
    /// run to its end.
    pub fn status(&self) -> u8
        ensures { result ≡ status_of self.now }
    {
        match self {
            Ending::Ran(0) => 0,
            Ending::Ran(_) => 1,
            Ending::Unread(_) | Ending::Stopped(_) => 2,
        }
    }

    /// What is said of it on standard error, where it is not the end of the script.
    pub fn complaint(&self) -> Option<&'static str> {
        match self {
            Ending::Ran(_) => None,
            Ending::Unread(FileFault::Failed) => Some("script cannot be read"),
            Ending::Unread(FileFault::Memory) | Ending::Stopped(RunFault::Memory) => {
                Some("no memory")
            }
            Ending::Stopped(RunFault::Output) => Some("output failed"),
            // Not reached, since the options give no other depth.
            Ending::Stopped(RunFault::Depth) => Some("the depth is not from 1 to 1000"),
        }
    }
}

/// How a call of the program ended.
#[derive(Drop)]
pub enum Outcome {
    /// Its words had no memory, or are not UTF-8.
    NoWords,
    /// Clap has answered its words, by this exit status.
    Answered(u8),
    /// It ran a script, or had none to run.
    Ended(Ending),
}

impl Outcome {
    /// The exit status: that of the run, or of clap's answer, and 2 where there was neither.
    pub fn status(&self) -> u8
        ensures { result ≡ outcome_status self.now }
    {
        match self {
            Outcome::NoWords => 2,
            Outcome::Answered(status) => *status,
            Outcome::Ended(ending) => ending.status(),
        }
    }
}
