//! The layer so far.

use cam_apertures::Macros;
use cam_objects::Layer;

/// The layer of the commands so far, and the macros that they define.
#[derive(Drop)]
pub struct Built {
    pub layer: Layer,
    pub macros: Macros,
    /// How many leaves the items have.
    pub leaves: u64,
}
