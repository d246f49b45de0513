//! What can be wrong with an aperture definition.

ghost use Rattle.std.specs.Prelude.{◌≡◌};
ghost use Rattle.cam_refusals.specs.Refusals.{number_of};
ghost use Rattle.cam_apertures.specs.Faults.{of_macro, aperture_refusal};
ghost use Rattle.cam_apertures.specs.declared.fault.AdFault.TheVariants.{OutOfMemory};

use cam_macros::MacroFault;
use cam_refusals::Refusal;
use std::alloc::{AllocError, AllocFailed};

/// Why an aperture definition is refused (Gerber Layer Format Specification, "Aperture definition
/// (AD)" and "Aperture macro (AM)").
#[derive(Clone, Copy, Debug, PartialEq, Eq)]
pub enum AdFault {
    /// No number and name stand there, or a parameter holds another byte than digits, signs and
    /// points.
    UnknownForm,
    /// The number is none from 10 to 2,147,483,647, a parameter is no decimal under 10^6, or a
    /// circle, rectangle or obround has too few.
    BadNumber,
    /// The template is `P` or unknown, or has parameters behind the first hole.
    TemplateRefused,
    /// A primitive's code is none of 1, 2, 4, 20 and 21.
    PrimitiveRefused,
    /// A rotation of a primitive is no multiple of 90 degrees.
    RotationRefused,
    /// A size is out of its range: a diameter or hole past 0 to 200 mm, a side past 1 nm to 200
    /// mm, or a size or coordinate of a primitive past 200 mm.
    SizeRefused,
    /// A primitive has a wrong count of fields, an exposure other than 0 or 1, an outline count
    /// outside 1 to 5,000, a value of 10^6 units or more, or a divisor of 0.
    Malformed,
    OutOfMemory,
}

impl AdFault {
    /// The refusal that tells it.
    pub fn refusal(self) -> Refusal
        ensures { result ≡ aperture_refusal self }
    {
        match self {
            AdFault::UnknownForm => Refusal::UnknownCommand,
            AdFault::BadNumber => Refusal::BadNumber,
            AdFault::TemplateRefused => Refusal::TemplateRefused,
            AdFault::PrimitiveRefused => Refusal::PrimitiveRefused,
            AdFault::RotationRefused => Refusal::RotationRefused,
            AdFault::SizeRefused => Refusal::SizeRefused,
            AdFault::Malformed => Refusal::MacroFault,
            AdFault::OutOfMemory => Refusal::NoMemory,
        }
    }

    /// The number by which it is told: 3, 4, 11, 12, 13, 24, 29 or 30.
    pub fn number(self) -> u8
        ensures { result ≡ number_of (aperture_refusal self) }
    {
        self.refusal().number()
    }
}

impl From<MacroFault> for AdFault {
    ghost from_gives = { λ fault told. told ≡ of_macro fault };

    fn from(fault: MacroFault) -> AdFault {
        match fault {
            MacroFault::BadName | MacroFault::Malformed => AdFault::Malformed,
            MacroFault::PrimitiveRefused => AdFault::PrimitiveRefused,
            MacroFault::RotationRefused => AdFault::RotationRefused,
            MacroFault::SizeRefused => AdFault::SizeRefused,
            MacroFault::OutOfMemory => AdFault::OutOfMemory,
        }
    }
}

impl From<AllocError> for AdFault {
    ghost from_gives = { λ _ fault. fault ≡ OutOfMemory };

    fn from(_error: AllocError) -> AdFault {
        AdFault::OutOfMemory
    }
}

impl<T: Drop> From<AllocFailed<T>> for AdFault {
    ghost from_gives = { λ _ fault. fault ≡ OutOfMemory };

    fn from(_error: AllocFailed<T>) -> AdFault {
        AdFault::OutOfMemory
    }
}
