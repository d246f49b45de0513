//! The heights of the shapes whose runs are known.

ghost use Rattle.std.specs.Prelude.{◌^◌, ◌<◌, ◌≤ℤ◌, ◌<ℤ◌, pos};
ghost use Rattle.std.specs.Int.RustNames.{unsigned_abs};
ghost use Rattle.cam_units.specs.Board.{IsOnBoard, IsSize};
ghost use Rattle.cam_shapes.specs.Plane.{dot, square, way};
ghost use Rattle.cam_tiles.specs.Machinery.Masks.{AreAbout, AreAlong};

use crate::masks::heights::{HasHeights, Heights};
use cam_rows::{Hole, squared_distance};
use cam_shapes::{Bar, Cap, Disc, Obround, Rectangle, Swept};
use cam_units::{Nm, Point, isqrt};

impl HasHeights for Disc {
    fn heights(&self) -> Heights {
        about(self.centre, self.diameter)
    }
}

impl HasHeights for Hole {
    fn heights(&self) -> Heights {
        about(self.0.centre, self.0.diameter)
    }
}

impl HasHeights for Rectangle {
    fn heights(&self) -> Heights {
        about(self.centre, self.height)
    }
}

impl HasHeights for Obround {
    fn heights(&self) -> Heights {
        about(self.centre, self.height)
    }
}

impl HasHeights for Bar {
    fn heights(&self) -> Heights {
        along(self.from, self.to, self.width)
    }
}

impl HasHeights for Swept {
    fn heights(&self) -> Heights {
        along(self.from, self.to, self.height)
    }
}

impl HasHeights for Cap {
    fn heights(&self) -> Heights {
        about(self.centre, past_circle(self.centre, self.from))
    }
}

/// The heights so far to both sides of a point.
pub(crate) fn about(point: Point, reach: Nm) -> Heights
    requires point { IsOnBoard point }
    requires reach { unsigned_abs reach.0 < 2 ^ 35 }
    ensures { AreAbout point reach.0 result }
{
    Heights {
        low: 2 * point.y - reach.0,
        high: 2 * point.y + reach.0,
    }
}

/// The heights of the way between two points, and so far above and below it.
fn along(from: Point, to: Point, reach: Nm) -> Heights
    requires from { IsOnBoard from }
    requires to { IsOnBoard to }
    requires reach { IsSize reach.0 }
    ensures { AreAlong from to reach.0 result }
{
    Heights {
        low: 2 * from.y.min(to.y) - reach.0,
        high: 2 * from.y.max(to.y) + reach.0,
    }
}

/// More than the radius of the circle about a point through another, in half nm.
pub(crate) fn past_circle(centre: Point, from: Point) -> Nm
    requires centre { IsOnBoard centre }
    requires from { IsOnBoard from }
    ensures past { dot (way centre from) (way centre from) <ℤ square result.0 }
    ensures some { pos 0 <ℤ result.0 }
    ensures short { result.0 ≤ℤ pos (2 ^ 34) }
{
    Nm(isqrt(squared_distance(&centre, &from)) as i64 + 1)
}
