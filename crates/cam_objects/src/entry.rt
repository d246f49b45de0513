//! Entries of a dictionary.

ghost use Rattle.std.specs.Prelude.{◌≡◌, ℕ};
ghost use Rattle.cam_objects.specs.Leaves.{Meaning, entry_meaning};

use crate::object::Objects;
use crate::tip::{Tip, solid_tip};
use cam_apertures::Aperture;

/// What a number of the dictionary stands for: an aperture, or a block (Gerber Layer Format
/// Specification, "Block Aperture (AB)"), whose objects name earlier entries alone.
#[derive(Clone, Debug, Drop)]
pub enum Entry {
    Aperture(Aperture),
    Block(Objects),
}

impl Entry {
    /// What its strokes are drawn with: a block has no tip.
    pub(crate) fn tip(&self) -> Option<Tip>
        ensures { (means : ℕ → Meaning) → result ≡ (entry_meaning means self.now).tip }
    {
        match self {
            Entry::Aperture(aperture) => solid_tip(aperture),
            Entry::Block(_) => None,
        }
    }
}
