//! Heights between which shapes lie.

ghost use Rattle.std.specs.Prelude.{◌⊎◌, ◌≢◌, ◌↔◌, IsTrue};
ghost use Rattle.cam_units.specs.Board.{IsOnBoard};
ghost use Rattle.cam_units.specs.declared.point.Spot.{Spot};
ghost use Rattle.cam_shapes.specs.Edge.{is_above};
ghost use Rattle.cam_tiles.specs.Machinery.Masks.{IsWithin};

use cam_rows::RunShape;
use cam_units::Point;

/// The heights from a low to a high one, both included, in half nm; none where `high` is less than `low`.
#[derive(Clone, Copy)]
pub(crate) struct Heights {
    pub(crate) low: i64,
    pub(crate) high: i64,
}

impl Heights {
    /// None.
    pub(crate) const NONE: Heights = Heights {
        low: i64::MAX,
        high: i64::MIN,
    };

    /// Its own heights and those of others, with all between.
    #[inline]
    pub(crate) fn joined(self, others: Heights) -> Heights
        ensures { (s : Spot) → IsWithin self s ⊎ IsWithin others s → IsWithin result s }
    {
        Heights {
            low: self.low.min(others.low),
            high: self.high.max(others.high),
        }
    }

    /// Whether it has no height in common with others.
    #[inline]
    pub(crate) fn are_apart(self, others: Heights) -> bool
        ensures { IsTrue result → (s : Spot) → IsWithin self s → IsWithin others s → ⊥ }
    {
        self.high < others.low || others.high < self.low
    }
}

/// The heights of the rays to the right that an edge may cross: from its lower end on, up to below its higher one.
#[inline]
pub(crate) fn crossed_heights(from: Point, to: Point) -> Heights
    requires from { IsOnBoard from }
    requires to { IsOnBoard to }
    ensures { (s : Spot) → IsWithin result s ↔ (is_above from s ≢ is_above to s) }
{
    Heights {
        low: 2 * from.y.min(to.y),
        high: 2 * from.y.max(to.y) - 1,
    }
}

/// A shape whose heights are known, and whose runs are.
pub(crate) trait HasHeights: RunShape {
    /// Heights between which all places lie that it holds.
    fn heights(&self) -> Heights
        requires { Self.is_sound self.now }
        ensures { (s : Spot) → Self.holds self.now s → IsWithin result s };
}
