//! What a raster refuses.

ghost use Rattle.std.specs.Prelude.{◌≡◌};
ghost use Rattle.cam_refusals.specs.Refusals.{number_of};
ghost use Rattle.cam_tiles.specs.Faults.{raster_refusal};
ghost use Rattle.cam_tiles.specs.declared.fault.RasterFault.TheVariants.{Memory};

use cam_refusals::Refusal;
use std::alloc::AllocError;
use thiserror::Error;

/// Why there is no raster of a window, or no file of a raster.
#[derive(Clone, Copy, Debug, PartialEq, Eq, Drop, Error)]
pub enum RasterFault {
    /// A side, the pitch or a pixel centre of the window is outside its limits (50).
    #[error("the window is outside its limits")]
    WindowRefused,
    /// Some tile is dirty (51).
    #[error("some tiles are still to be drawn")]
    StillDirty,
    /// Memory was refused (30).
    #[error("no memory")]
    Memory,
}

impl RasterFault {
    /// The refusal that it is told as.
    pub fn refusal(self) -> Refusal
        ensures { result ≡ raster_refusal self }
    {
        match self {
            RasterFault::WindowRefused => Refusal::OutOfLimits,
            RasterFault::StillDirty => Refusal::StillDirty,
            RasterFault::Memory => Refusal::NoMemory,
        }
    }

    /// The number by which it is told: 50, 51 or 30.
    pub fn number(self) -> u8
        ensures { result ≡ number_of (raster_refusal self) }
    {
        self.refusal().number()
    }
}

impl From<AllocError> for RasterFault {
    ghost from_gives = { λ _ fault. fault ≡ Memory };

    fn from(_error: AllocError) -> RasterFault {
        RasterFault::Memory
    }
}
