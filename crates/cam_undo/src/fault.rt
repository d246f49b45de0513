//! What a history refuses.

ghost use Rattle.std.specs.Prelude.{◌≡◌};
ghost use Rattle.cam_refusals.specs.Refusals.{number_of};
ghost use Rattle.cam_undo.specs.Faults.{history_refusal};
ghost use Rattle.cam_undo.specs.declared.fault.HistoryFault.TheVariants.{Memory};

use cam_refusals::Refusal;
use std::alloc::AllocError;
use thiserror::Error;

/// Why a history refuses a call.
#[derive(Clone, Copy, Debug, PartialEq, Eq, Drop, Error)]
pub enum HistoryFault {
    /// A depth that is not from 1 to 1,000 (50).
    #[error("the depth must be from 1 to 1,000")]
    Depth,
    /// A group is open (72).
    #[error("a group is open")]
    GroupOpen,
    /// No group is open (73).
    #[error("no group is open")]
    NoGroup,
    /// The past is empty (70).
    #[error("there is nothing to undo")]
    NothingToUndo,
    /// The future is empty (71).
    #[error("there is nothing to redo")]
    NothingToRedo,
    /// Memory was refused (30).
    #[error("no memory")]
    Memory,
}

impl HistoryFault {
    /// The refusal that it is told as.
    pub fn refusal(self) -> Refusal
        ensures { result ≡ history_refusal self }
    {
        match self {
            HistoryFault::Depth => Refusal::OutOfLimits,
            HistoryFault::GroupOpen => Refusal::GroupOpen,
            HistoryFault::NoGroup => Refusal::NoGroup,
            HistoryFault::NothingToUndo => Refusal::NothingToUndo,
            HistoryFault::NothingToRedo => Refusal::NothingToRedo,
            HistoryFault::Memory => Refusal::NoMemory,
        }
    }

    /// The number by which it is told: 50, 72, 73, 70, 71 or 30.
    pub fn number(self) -> u8
        ensures { result ≡ number_of (history_refusal self) }
    {
        self.refusal().number()
    }
}

impl From<AllocError> for HistoryFault {
    ghost from_gives = { λ _ fault. fault ≡ Memory };

    fn from(_error: AllocError) -> HistoryFault {
        HistoryFault::Memory
    }
}
