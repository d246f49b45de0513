//! How far flashes and strokes of an aperture reach.

ghost use Rattle.std.specs.Prelude.{◌≡◌, Bool, IsTrue, Some};
ghost use Rattle.cam_units.specs.Board.{IsOnBoard};
ghost use Rattle.cam_units.specs.Boxes.{Holds};
ghost use Rattle.cam_units.specs.declared.point.Spot.{Spot};
ghost use Rattle.cam_objects.specs.Bounds.{bounds_of};
ghost use Rattle.cam_objects.specs.Image.{IsUncovered};
ghost use Rattle.cam_objects.specs.Leaves.{meaning_in, object_leaves, origin};
ghost use Rattle.cam_objects.specs.Machinery.Extents.{IsExtentIn};
ghost use Rattle.cam_objects.specs.Machinery.Painting.{StandsOnBoard};
ghost use Rattle.cam_objects.specs.Soundness.{IsSoundDictionary};
ghost use Rattle.cam_objects.specs.declared.object.Object.TheVariants.{Flash};

use crate::boxes::lines::line_misses;
use crate::boxes::shapes::{contour_bounds, drawn_bounds, sweep_bounds};
use crate::dictionary::Dictionary;
use crate::object::Object;
use crate::placing::place::Place;
use crate::tip::{Tip, round_width};
use cam_shapes::Arc;
use cam_units::{Bounds, Point, Turn};

/// What the boxes of objects need of a number: the box of what one flash of it paints at (0, 0), neither mirrored nor
/// turned, in half nm, and what its strokes are drawn with.
#[derive(Clone, Copy)]
pub(crate) struct Extent {
    pub number: u32,
    pub bounds: Bounds,
    pub tip: Option<Tip>,
}

impl Extent {
    /// Of 0, a number that no entry has.
    pub(crate) fn none(entries: &Dictionary) -> Extent
        ensures { IsExtentIn entries.now result }
    {
        entries.soundness();
        Extent {
            number: 0,
            bounds: Bounds::Empty,
            tip: None,
        }
    }

    /// Of a number.
    #[inline(never)]
    fn of(entries: &Dictionary, number: u32) -> Extent
        ensures extent { IsExtentIn entries.now result }
        ensures number { result.number ≡ number }
    {
        match entries.find_with_facts(number) {
            Some((_, entry, facts)) => Extent {
                number,
                bounds: facts.bounds,
                tip: entry.tip(),
            },
            None => Extent {
                number,
                bounds: Bounds::Empty,
                tip: None,
            },
        }
    }

    /// Makes it that of a number, which is looked up only where it is another one.
    #[inline]
    fn go_to(&mut self, entries: &Dictionary, number: u32)
        requires { IsExtentIn entries.now self.old }
        ensures extent { IsExtentIn entries.now self.new }
        ensures number { self.new.number ≡ number }
    {
        if self.number != number {
            *self = Extent::of(entries, number);
        }
    }

    /// The box of what a flash paints. It becomes the extent of the aperture that is flashed.
    #[inline]
    fn flash_bounds(&mut self, entries: &Dictionary, aperture: u32, at: Point, turn: Turn) -> Bounds
        requires extent { IsExtentIn entries.now self.old }
        requires at { IsOnBoard at }
        ensures value { (dark : Bool)
            → result ≡ bounds_of (object_leaves (meaning_in entries.now) origin (Flash aperture at turn dark)) }
        ensures extent { IsExtentIn entries.now self.new }
    {
        self.go_to(entries, aperture);
        let place = Place {
            turn,
            offset: at,
            dark: true,
        };
        place.bounds(self.bounds)
    }

    /// The box of what an object paints. It becomes the extent of the aperture that the object names.
    pub(crate) fn object_bounds(&mut self, entries: &Dictionary, object: &Object) -> Bounds
        requires extent { IsExtentIn entries.now self.old }
        requires sound { IsSoundDictionary entries.now }
        requires stands { StandsOnBoard object.now }
        ensures value { result ≡ bounds_of (object_leaves (meaning_in entries.now) origin object.now) }
        ensures extent { IsExtentIn entries.now self.new }
    {
        match object {
            Object::Flash {
                aperture,
                at,
                turn,
                ..
            } => self.flash_bounds(entries, *aperture, *at, *turn),
            Object::Draw {
                aperture,
                from,
                to,
                turn,
                ..
            } => {
                self.go_to(entries, *aperture);
                match self.tip {
                    Some(tip) => drawn_bounds(from, to, &tip.turned(*turn)),
                    None => Bounds::Empty,
                }
            }
            Object::Arc {
                aperture,
                from,
                to,
                centre,
                ccw,
                ..
            } => {
                self.go_to(entries, *aperture);
                match round_width(self.tip) {
                    Some(width) => sweep_bounds(&Arc {
                        from: *from,
                        to: *to,
                        centre: *centre,
                        ccw: *ccw,
                        width,
                    }),
                    None => Bounds::Empty,
                }
            }
            Object::Region { contour, .. } => contour_bounds(contour),
        }
    }

    /// Whether an object is a draw of which one sees by its line alone that it covers no place of a box, in half nm: all of
    /// the box lies beyond the line, on one side. It becomes the extent of the aperture that is drawn with.
    pub(crate) fn line_misses(
        &mut self,
        entries: &Dictionary,
        object: &Object,
        within: Bounds,
    ) -> bool
        requires extent { IsExtentIn entries.now self.old }
        requires sound { IsSoundDictionary entries.now }
        requires stands { StandsOnBoard object.now }
        ensures off { IsTrue result → (s : Spot) → Holds within s → IsUncovered
            (object_leaves (meaning_in entries.now) origin object.now) s }
        ensures extent { IsExtentIn entries.now self.new }
    {
        let Object::Draw {
            aperture,
            from,
            to,
            turn,
            ..
        } = object
        else {
            return false;
        };
        self.go_to(entries, *aperture);
        match self.tip {
            Some(tip) => line_misses(from, to, &tip.turned(*turn), within),
            None => false,
        }
    }
}
