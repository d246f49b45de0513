//! Rows of capsules.

ghost use Rattle.cam_shapes.specs.Bar.{IsInCapsule, IsSoundCapsule};
ghost use Rattle.cam_rows.specs.Rows.{IsRow, Marks};

use crate::bar::bar_row;
use crate::centres::Centres;
use crate::disc::disc_row;
use cam_shapes::{Bar, Capsule, Disc};

/// The centres in a capsule or on its edge: those in the discs about its ends, and those beside the way between them;
/// none where its width is 0. Bit i is that of centre i, from the left; the width and the ends are in nanometres, the
/// centres in half nanometres.
pub fn capsule_row(capsule: Capsule, centres: Centres) -> u64
    requires capsule { IsSoundCapsule capsule }
    requires row { IsRow centres }
    ensures { Marks result centres (λ s. IsInCapsule s capsule) }
{
    let Capsule { from, to, width } = capsule;
    let start = Disc {
        centre: from,
        diameter: width,
    };
    let end = Disc {
        centre: to,
        diameter: width,
    };
    bar_row(Bar { from, to, width }, centres) | disc_row(start, centres) | disc_row(end, centres)
}
