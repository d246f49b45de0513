//! What layers are painted on.

ghost use Rattle.std.specs.Prelude.{◌↔◌, ℕ, Bool, Option, IsTrue, ◌∷◌, []};
ghost use Rattle.cam_units.specs.Boxes.{Holds};
ghost use Rattle.cam_units.specs.declared.point.Spot.{Spot};
ghost use Rattle.cam_objects.specs.Canvases.{IsDecidedIn, IsSoundPrint, Paints, leaf_of};

use cam_apertures::Aperture;
use cam_shapes::{Arc, Capsule, Contour, Disc, Swept};
use cam_units::{Bounds, Point, Turn};

/// What a leaf covers, where it is painted; points and sizes are in nm.
#[derive(Clone, Copy, Debug)]
pub enum Figure<'a> {
    /// An aperture, mirrored and turned about its flash point, which comes to lie at a point.
    Stamp {
        aperture: &'a Aperture,
        turn: Turn,
        at: Point,
    },
    /// A stroke of a round tool along a line.
    Stroke(Capsule),
    /// A stroke of a rectangle along a line.
    Swept(Swept),
    /// A stroke along an arc.
    Sweep(Arc),
    /// The inside of a contour that is turned about (0, 0) and then moved.
    Filled {
        contour: &'a Contour,
        turn: Turn,
        offset: Point,
    },
    /// A drilled disc.
    Drilled(Disc),
}

/// A leaf: a figure that darkens or clears what it covers, with a box that holds all of that, in half nm.
#[derive(Clone, Copy, Debug)]
pub struct Print<'a> {
    pub figure: Figure<'a>,
    pub dark: bool,
    pub bounds: Bounds,
}

/// Pixels in columns and rows, each with a place, in half nm, which leaves are painted on from the last one on: what a
/// leaf covers is decided, and no later one changes it.
pub trait Canvas {
    /// Whether there is a pixel in a column and a row.
    ghost has: { Self → ℕ → ℕ → Type 0 };

    /// Its place.
    ghost place: { Self → ℕ → ℕ → Spot };

    /// Its ink, once it is decided: whether it is dark.
    ghost ink: { Self → ℕ → ℕ → Option Bool };

    /// A box that holds the places of all pixels, in half nm.
    fn bounds(&self) -> Bounds
        ensures { (column row : ℕ) → has self.now column row → Holds result (place self.now column row) };

    /// Whether each pixel that has its place in a box, in half nm, is decided.
    fn is_decided_in(&self, bounds: Bounds) -> bool
        ensures { IsTrue result ↔ IsDecidedIn has place ink self.now bounds };

    /// Paints a leaf beneath those before: each undecided pixel whose place it covers takes its polarity.
    fn paint(&mut self, print: Print<'_>)
        requires { IsSoundPrint print }
        ensures { Paints has place ink self.old (leaf_of print.entry ∷ []) self.new };
}

/// Whether the box meets no place of the canvas's own box, so that no pixel has its place in it. For a single leaf this is
/// enough: what is decided the canvas finds as it paints.
pub(crate) fn misses<C: Canvas>(canvas: &C, bounds: Bounds) -> bool
    ensures { IsTrue result → IsDecidedIn C.has C.place C.ink canvas.now bounds }
{
    !bounds.meets(canvas.bounds())
}

/// Whether nothing in the box is left to paint: no pixel has its place there, or all that do are decided.
pub(crate) fn is_done_in<C: Canvas>(canvas: &C, bounds: Bounds) -> bool
    ensures { IsTrue result ↔ IsDecidedIn C.has C.place C.ink canvas.now bounds }
{
    misses(canvas, bounds) || canvas.is_decided_in(bounds)
}
