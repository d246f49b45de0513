//! What a line of a script says.

ghost use Rattle.std.specs.Prelude.{◌≡◌};
ghost use Rattle.cam_refusals.specs.Refusals.{number_of};
ghost use Rattle.cam_script.specs.Faults.{line_refusal};

use crate::command::{Command, FileKind};
use crate::path::FilePath;
use cam_edits::Name;
use cam_refusals::Refusal;
use std::alloc::AllocError;
use thiserror::Error;

/// A command, or one that reads or writes a file, with the file's path.
#[derive(Drop)]
pub enum Line {
    /// A command that no file goes with.
    Command(Command),
    /// Gets a file and loads it as a layer of this name.
    Load {
        name: Name,
        kind: FileKind,
        path: FilePath,
    },
    /// Plots the layer of this name and puts the picture under the path.
    Plot {
        name: Name,
        path: FilePath,
    },
    /// Puts the canonical text of the layer of this name under the path.
    Write {
        name: Name,
        path: FilePath,
    },
}

/// Why a line says nothing.
#[derive(Clone, Copy, Debug, PartialEq, Eq, Drop, Error)]
pub enum LineFault {
    /// More than 65,536 bytes (81).
    #[error("the line is too long")]
    LineTooLong,
    /// The words are no command (80).
    #[error("the line is no command")]
    BadLine,
    /// Memory for a name, a path or an item was refused (30).
    #[error("no memory")]
    Memory,
}

impl From<AllocError> for LineFault {
    ghost use Rattle.cam_script.specs.declared.line.LineFault.{LineFault};

    ghost from_gives = { λ _ fault. fault ≡ LineFault.Memory };

    fn from(_error: AllocError) -> LineFault {
        LineFault::Memory
    }
}

impl LineFault {
    /// The refusal that it is told as.
    pub fn refusal(self) -> Refusal
        ensures { result ≡ line_refusal self }
    {
        match self {
            LineFault::LineTooLong => Refusal::LineTooLong,
            LineFault::BadLine => Refusal::BadLine,
            LineFault::Memory => Refusal::NoMemory,
        }
    }

    /// The number by which it is told: 81, 80 or 30.
    pub fn number(self) -> u8
        ensures { result ≡ number_of (line_refusal self) }
    {
        self.refusal().number()
    }
}
