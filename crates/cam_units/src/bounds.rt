//! Closed boxes of places.

ghost use Rattle.std.specs.Prelude.{◌≡◌, ◌↔◌, IsTrue};
ghost use Rattle.cam_units.specs.declared.point.Spot.{Spot};
ghost use Rattle.cam_units.specs.declared.bounds.Bounds.TheVariants.{Closed, Empty};
ghost use Rattle.cam_units.specs.Boxes.{
  Holds,
  HaveCommonPlace,
  IsLeastAround,
  box_between,
  clip_of,
  greatest_of,
  has_no_place,
  join_of,
  least_of,
  span_of,
};

use crate::point::Spot;

/// A closed box of places, in half nanometres, or no place at all.
///
/// A `Closed` box whose low corner is not left of and below its high corner holds no
/// place, as `Empty` does.
#[derive(Clone, Copy, Debug, PartialEq, Eq)]
pub enum Bounds {
    Empty,
    Closed { low: Spot, high: Spot },
}

/// The lesser of each coordinate.
fn least(a: Spot, b: Spot) -> Spot
    ensures { result ≡ least_of a b }
{
    Spot {
        x: a.x.min(b.x),
        y: a.y.min(b.y),
    }
}

/// The greater of each coordinate.
fn greatest(a: Spot, b: Spot) -> Spot
    ensures { result ≡ greatest_of a b }
{
    Spot {
        x: a.x.max(b.x),
        y: a.y.max(b.y),
    }
}

/// Whether no place lies between the corners.
fn is_crossed(low: Spot, high: Spot) -> bool
    ensures { result ≡ has_no_place (Closed low high) }
{
    high.x < low.x || high.y < low.y
}

/// The box between two corners, `Empty` where no place lies there.
fn between(low: Spot, high: Spot) -> Bounds
    ensures { result ≡ box_between low high }
{
    if is_crossed(low, high) {
        return Bounds::Empty;
    }
    Bounds::Closed { low, high }
}

/// The box from the least to the greatest corner of two boxes that hold places.
fn spanned(first: Bounds, second: Bounds) -> Bounds
    ensures { result ≡ span_of first second }
{
    match (first, second) {
        (
            Bounds::Closed { low, high },
            Bounds::Closed {
                low: left,
                high: right,
            },
        ) => Bounds::Closed {
            low: least(low, left),
            high: greatest(high, right),
        },
        (Bounds::Empty, only) | (only, Bounds::Empty) => only,
    }
}

impl Bounds {
    /// Whether no place lies in the box.
    pub fn is_empty(self) -> bool
        ensures value { result ≡ has_no_place self }
        ensures meaning { IsTrue result ↔ ((s : Spot) → ¬ Holds self s) }
    {
        match self {
            Bounds::Empty => true,
            Bounds::Closed { low, high } => is_crossed(low, high),
        }
    }

    /// Whether some place lies in both boxes.
    pub fn meets(self, other: Bounds) -> bool
        ensures { IsTrue result ↔ HaveCommonPlace self other }
    {
        !self.clipped(other).is_empty()
    }

    /// The least box that holds both.
    pub fn joined(self, other: Bounds) -> Bounds
        ensures value { result ≡ join_of self other }
        ensures least { IsLeastAround self other result }
    {
        if self.is_empty() {
            return other;
        }
        if other.is_empty() {
            return self;
        }
        spanned(self, other)
    }

    /// The box of the places that lie in both; `Empty` where there is none.
    pub fn clipped(self, other: Bounds) -> Bounds
        ensures value { result ≡ clip_of self other }
        ensures places { (s : Spot) → Holds result s ↔ (Holds self s × Holds other s) }
        ensures apart { ¬ HaveCommonPlace self other → result ≡ Empty }
    {
        match (self, other) {
            (
                Bounds::Closed { low, high },
                Bounds::Closed {
                    low: left,
                    high: right,
                },
            ) => between(greatest(low, left), least(high, right)),
            _ => Bounds::Empty,
        }
    }
}
