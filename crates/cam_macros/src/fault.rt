//! What can be wrong with a macro.

ghost use Rattle.std.specs.Prelude.{◌≡◌};
ghost use Rattle.cam_refusals.specs.Refusals.{number_of};
ghost use Rattle.cam_macros.specs.Faults.{macro_refusal};
ghost use Rattle.cam_macros.specs.declared.fault.MacroFault.TheVariants.{OutOfMemory};

use cam_refusals::Refusal;
use std::alloc::{AllocError, AllocFailed};

/// Why a macro is refused (Gerber Layer Format Specification, "Aperture macro (AM)").
#[derive(Clone, Copy, Debug, PartialEq, Eq)]
pub enum MacroFault {
    /// The name is empty, has a comma or begins with a digit.
    BadName,
    /// A part is outside the grammar; or a primitive has a wrong count of fields, an
    /// exposure other than 0 or 1, an outline count outside 1 to 5,000, a value of 10^6
    /// units or more, or a divisor of 0.
    Malformed,
    /// A primitive's code is none of 1, 2, 4, 20 and 21.
    PrimitiveRefused,
    /// A rotation is no multiple of 90 degrees.
    RotationRefused,
    /// A size is negative, or a size or a coordinate is past 200 mm.
    SizeRefused,
    OutOfMemory,
}

impl MacroFault {
    /// The refusal that tells it.
    pub fn refusal(self) -> Refusal
        ensures { result ≡ macro_refusal self }
    {
        match self {
            MacroFault::BadName => Refusal::UnknownCommand,
            MacroFault::PrimitiveRefused => Refusal::PrimitiveRefused,
            MacroFault::RotationRefused => Refusal::RotationRefused,
            MacroFault::SizeRefused => Refusal::SizeRefused,
            MacroFault::Malformed => Refusal::MacroFault,
            MacroFault::OutOfMemory => Refusal::NoMemory,
        }
    }

    /// The number by which it is told: 3, 29, 12, 13, 24 or 30.
    pub fn number(self) -> u8
        ensures { result ≡ number_of (macro_refusal self) }
    {
        self.refusal().number()
    }
}

impl From<AllocError> for MacroFault {
    ghost from_gives = { λ _ fault. fault ≡ OutOfMemory };

    fn from(_error: AllocError) -> MacroFault {
        MacroFault::OutOfMemory
    }
}

impl<T: Drop> From<AllocFailed<T>> for MacroFault {
    ghost from_gives = { λ _ fault. fault ≡ OutOfMemory };

    fn from(_error: AllocFailed<T>) -> MacroFault {
        MacroFault::OutOfMemory
    }
}
