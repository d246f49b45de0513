//! Why a command was refused.

ghost use Rattle.std.specs.Prelude.{◌≡◌};
ghost use Rattle.cam_refusals.specs.Refusals.{number_of};
ghost use Rattle.cam_refusals.specs.declared.refusal.Refusal.TheVariants.{NoMemory};
ghost use Rattle.cam_station.specs.Machine.{fault};
ghost use Rattle.cam_station.specs.Meanings.{fault_at};

use cam_refusals::{ReadFault, Refusal};
use std::alloc::AllocError;

/// Why a command was refused, and where a reader found the fault, the place in the file, in bytes
/// from its start.
#[derive(Clone, Copy, Debug, PartialEq, Eq)]
pub struct Fault {
    pub code: Refusal,
    pub at: Option<usize>,
}

impl Fault {
    /// The number by which the refusal is told.
    pub fn number(self) -> u8
        ensures { result ≡ number_of self.code }
    {
        self.code.number()
    }
}

/// Memory was refused.
impl From<AllocError> for Fault {
    ghost from_gives = { λ _ told. told ≡ fault NoMemory };

    fn from(_error: AllocError) -> Fault {
        without_place(Refusal::NoMemory)
    }
}

/// What a reader found.
impl From<ReadFault> for Fault {
    ghost from_gives = { λ found told. told ≡ fault_at found.code found.at };

    fn from(found: ReadFault) -> Fault {
        Fault {
            code: found.code,
            at: Some(found.at),
        }
    }
}

/// A fault without a place.
pub(crate) fn without_place(code: Refusal) -> Fault
    ensures { result ≡ fault code }
{
    Fault { code, at: None }
}
