//! Runs of rectangles: those of a stroke that leads nowhere.

ghost use Rattle.std.specs.Prelude.{◌≡◌, length};
ghost use Rattle.cam_shapes.specs.Box.{IsInRectangle, IsSoundRectangle};
ghost use Rattle.cam_rows.specs.Runs.{AreRuns, AreWideRows};

use super::swept::swept_runs;
use crate::centres::Centres;
use cam_shapes::{Rectangle, Swept};

/// The runs of a rectangle in wide rows, one below another from the top one: the columns in it or on its edge, none
/// where a side is 0. A run goes from its first column on and before its end; the sides are in nanometres, the centres
/// in half nanometres, up to 32,768 of them in a row.
pub fn rect_runs(rectangle: &Rectangle, top: &Centres, firsts: &mut [u32], ends: &mut [u32])
    requires rectangle { IsSoundRectangle rectangle.now }
    requires rows { AreWideRows top.now (length firsts.old) }
    requires ends { length ends.old ≡ length firsts.old }
    ensures { AreRuns firsts.new ends.new top.now (λ s. IsInRectangle s rectangle.now) }
{
    let swept = Swept {
        from: rectangle.centre,
        to: rectangle.centre,
        width: rectangle.width,
        height: rectangle.height,
    };
    swept_runs(&swept, top, firsts, ends);
}
