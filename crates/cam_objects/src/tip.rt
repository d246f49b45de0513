//! What strokes are drawn with.

ghost use Rattle.std.specs.Prelude.{◌≡◌};
ghost use Rattle.cam_objects.specs.Leaves.{round_width as round_width_of, solid_tip as solid_tip_of, turned_tip};
ghost use Rattle.cam_objects.specs.Machinery.Boxes.{IsSizedTip};

use cam_apertures::{Aperture, turned_height, turned_width};
use cam_units::{Nm, Turn};

/// What strokes are drawn with; sizes are in nm.
#[derive(Clone, Copy)]
pub(crate) enum Tip {
    /// A round tool, as a solid circle is one.
    Round(Nm),
    /// A rectangle, which moves along a line and does not turn with it; its width in x and its height in y.
    Rectangular { width: Nm, height: Nm },
}

impl Tip {
    /// The tip, mirrored and turned.
    pub(crate) fn turned(self, turn: Turn) -> Tip
        requires { IsSizedTip self }
        ensures value { result ≡ turned_tip turn self }
        ensures sized { IsSizedTip result }
    {
        match self {
            Tip::Round(width) => Tip::Round(width),
            Tip::Rectangular { width, height } => Tip::Rectangular {
                width: turned_width(turn, width, height),
                height: turned_height(turn, width, height),
            },
        }
    }
}

/// What an aperture draws with: a solid circle or a solid rectangle, and no other, is a tip.
pub(crate) fn solid_tip(aperture: &Aperture) -> Option<Tip>
    ensures { result ≡ solid_tip_of aperture.now }
{
    match aperture {
        Aperture::Circle { diameter, hole } if hole.0 == 0 => Some(Tip::Round(*diameter)),
        Aperture::Rect {
            width,
            height,
            hole,
        } if hole.0 == 0 => Some(Tip::Rectangular {
            width: *width,
            height: *height,
        }),
        _ => None,
    }
}

/// How wide a round tip is, in nm; arcs are drawn with no other.
pub(crate) fn round_width(tip: Option<Tip>) -> Option<Nm>
    ensures { result ≡ round_width_of tip }
{
    match tip {
        Some(Tip::Round(width)) => Some(width),
        _ => None,
    }
}
