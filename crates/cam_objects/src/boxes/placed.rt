//! Boxes of what is painted, in half nm.

ghost use Rattle.std.specs.Prelude.{◌≡◌, ◌^◌, ◌<◌};
ghost use Rattle.std.specs.Int.RustNames.{unsigned_abs};
ghost use Rattle.cam_units.specs.Boxes.{HaveCommonPlace};
ghost use Rattle.cam_units.specs.declared.bounds.Bounds.{Bounds};
ghost use Rattle.cam_objects.specs.Bounds.{moved};
ghost use Rattle.cam_objects.specs.Machinery.Boxes.{
  IsBackFrom,
  IsBoxOffset,
  IsNearBox,
  IsNearSpot,
  moved_spot,
  placed_bounds,
  turned_back,
};

use crate::placing::place::Place;
use cam_apertures::turned;
use cam_units::{Bounds, Point, Spot, Turn};

/// A place, moved by so many nm.
fn moved_spot(spot: Spot, by: Point) -> Spot
    requires spot { IsNearSpot spot }
    requires by { IsBoxOffset by }
    ensures { result ≡ moved_spot by spot }
{
    Spot {
        x: spot.x + 2 * by.x,
        y: spot.y + 2 * by.y,
    }
}

/// A box, moved by so many nm.
#[inline]
pub(crate) fn moved(bounds: Bounds, by: Point) -> Bounds
    requires bounds { IsNearBox bounds }
    requires by { IsBoxOffset by }
    ensures { result ≡ moved by bounds }
{
    match bounds {
        Bounds::Empty => Bounds::Empty,
        Bounds::Closed { low, high } => Bounds::Closed {
            low: moved_spot(low, by),
            high: moved_spot(high, by),
        },
    }
}

/// How far from (0, 0) a coordinate may lie that is moved back, in half nm: all that is painted lies nearer.
const FAR: i64 = 1 << 33;

/// A coordinate before it was moved by so many nm; of one that was far, one that lies on the same side.
fn moved_back(at: i64, by: i64) -> i64
    requires { unsigned_abs by < 4500000000000000000 }
    ensures { IsBackFrom at by result }
{
    at.saturating_sub(2 * by).clamp(-FAR, FAR)
}

/// The turn that takes another one back.
fn turned_back(turn: Turn) -> Turn
    ensures { result ≡ turned_back turn }
{
    match turn {
        Turn::R90 => Turn::R270,
        Turn::R270 => Turn::R90,
        same => same,
    }
}

impl Place {
    /// A box there, in half nm, as it lies about what is painted before that is turned and moved: what has a place in common
    /// with it there has one before.
    pub(crate) fn seen(&self, bounds: Bounds) -> Bounds
        requires { IsBoxOffset self.now.offset }
        ensures { (b : Bounds) → IsNearBox b → HaveCommonPlace (placed_bounds self.now b) bounds
            → HaveCommonPlace b result }
    {
        let Bounds::Closed { low, high } = bounds else {
            return Bounds::Empty;
        };
        let Point { x, y } = self.offset;
        let back = Bounds::Closed {
            low: Spot {
                x: moved_back(low.x, x),
                y: moved_back(low.y, y),
            },
            high: Spot {
                x: moved_back(high.x, x),
                y: moved_back(high.y, y),
            },
        };
        turned(back, turned_back(self.turn))
    }

    /// The box there of what has this box at (0, 0).
    #[inline]
    pub(crate) fn bounds(&self, bounds: Bounds) -> Bounds
        requires offset { IsBoxOffset self.now.offset }
        requires bounds { IsNearBox bounds }
        ensures { result ≡ placed_bounds self.now bounds }
    {
        match self.turn {
            Turn::R0 => moved(bounds, self.offset),
            turn => moved(turned(bounds, turn), self.offset),
        }
    }
}
