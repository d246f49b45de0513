//! The primitives of a macro aperture.

ghost use Rattle.std.specs.Prelude.{◌≡◌, ◌↔◌, ◌<◌, [], All, IfOk, IsTrue, Some, length, map, slice_get};
ghost use Rattle.cam_units.specs.Board.{IsInReach};
ghost use Rattle.cam_apertures.specs.Cover.{IsExposed};
ghost use Rattle.cam_apertures.specs.Primitives.{IsSoundPrim, box_of_prims};
ghost use Rattle.cam_apertures.specs.Turned.{turned_prim};

use crate::boxes::{box_of_prims, has_place, turned};
use crate::shape::holds;
use cam_macros::{Prim, Prims};
use cam_units::{Bounds, Spot, Turn};
use std::alloc::{AllocError, Global};
use std::marker::Model;
use std::rc::Rc;

/// Primitives in their order, all within the limits. Copies share them.
#[derive(Debug, Drop)]
pub struct Primitives {
    shared: Rc<Boxed>,
}

/// Primitives, and the box of all of them beside them.
#[derive(Debug, Drop)]
struct Boxed {
    prims: Prims,
    bounds: Bounds,
}

impl Model for Primitives {
    ghost use Rattle.std.specs.Prelude.{List};
    ghost use Rattle.cam_macros.specs.declared.primitive.MacroPrimitive.{MacroPrimitive};
    ghost use Rattle.cam_apertures.specs.Machinery.Boxes.{IsBoxed};

    ghost Value = { List MacroPrimitive };

    ghost view = { λ p. p.shared.value.prims };

    ghost invariant = { λ p. IsBoxed p.shared.value.prims p.shared.value.bounds };
}

impl Primitives {
    /// These primitives: sizes from 0 to 200 mm, coordinates of at most 200 mm in absolute value,
    /// outlines of 1 to 5,000 points. An error where no memory is left for them.
    pub fn from_prims(alloc: Global, prims: Prims) -> Result<Primitives, AllocError>
        requires { All IsSoundPrim prims }
        ensures { IfOk result (λ made. made ≡ prims) }
    {
        let bounds = box_of_prims(prims.as_slice());
        match Rc::new(alloc, Boxed { prims, bounds }) {
            Ok(shared) => Ok(Primitives { shared }),
            Err(_) => Err(AllocError),
        }
    }

    /// How many primitives there are.
    pub fn len(&self) -> usize
        ensures { result ≡ length self.now }
    {
        self.shared.prims.as_slice().len()
    }

    /// Whether there is none.
    pub fn is_empty(&self) -> bool
        ensures { IsTrue result ↔ (self.now ≡ []) }
    {
        self.len() == 0
    }

    /// The primitive at a place in the order, counted from 0.
    pub fn at(&self, place: usize) -> &Prim
        requires { place < length self.now }
        ensures { slice_get self.now place ≡ Some result.now }
    {
        &self.shared.prims.as_slice()[place]
    }

    /// Whether the last primitive that holds the place, once they are turned, paints; false where
    /// none holds it.
    pub fn covers(&self, spot: Spot, turn: Turn) -> bool
        requires { IsInReach spot }
        ensures { IsTrue result ↔ IsExposed (map (turned_prim turn) self.now) spot }
    {
        if !has_place(self.bounds(turn), spot) {
            return false;
        }
        is_painted(self.shared.prims.as_slice(), spot, turn)
    }

    /// Whether all are within the limits: always, since no others are made.
    pub(crate) fn are_sound(&self) -> bool
        ensures { IsTrue result ↔ All IsSoundPrim self.now }
    {
        let _shared = &self.shared;
        true
    }

    /// The box of all primitives, turned: those that paint and those that do not, of any size.
    pub fn bounds(&self, turn: Turn) -> Bounds
        ensures { result ≡ box_of_prims (map (turned_prim turn) self.now) }
    {
        turned(self.shared.bounds, turn)
    }
}

/// Whether the last of the primitives that holds the place, once they are turned, paints.
fn is_painted(prims: &[Prim], spot: Spot, turn: Turn) -> bool
    requires prims { All IsSoundPrim prims.now }
    requires spot { IsInReach spot }
    ensures { IsTrue result ↔ IsExposed (map (turned_prim turn) prims.now) spot }
{
    for place in (0..prims.len()).rev() {
        let prim = &prims[place];
        if holds(&prim.shape, spot, turn) {
            return prim.paint;
        }
    }
    false
}

impl Clone for Primitives {
    ghost is_clone = { λ x y. y ≡ x };

    fn clone(&self) -> Result<Primitives, AllocError> {
        let shared = self.shared.clone()?;
        Ok(Primitives { shared })
    }
}
