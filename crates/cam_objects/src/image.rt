//! Which places of a layer are black: the layer is painted on a canvas of one pixel.

ghost use Rattle.std.specs.Prelude.{◌≡◌, ◌↔◌, IsSome, IsTrue, None, false, unwrap_or};
ghost use Rattle.cam_units.specs.Board.{IsInReach, IsOnBoard, IsPlace};
ghost use Rattle.cam_units.specs.Boxes.{Holds};
ghost use Rattle.cam_objects.specs.Canvases.{IsSoundFigure, shape_of};
ghost use Rattle.cam_objects.specs.Image.{Covers, relative as relative_to};

use crate::canvas::{Canvas, Figure, Print};
use cam_apertures::has_place;
use cam_shapes::{in_arc, in_capsule, in_contour, in_disc, in_swept};
use cam_units::{Bounds, Point, Spot};
use std::marker::Model;

/// A pixel at a place, in half nm, with its ink, once it is decided.
#[derive(Drop)]
pub(crate) struct Pixel {
    spot: Spot,
    ink: Option<bool>,
}

impl Model for Pixel {
    ghost use Rattle.std.specs.Prelude.{Bool, Option};
    ghost use Rattle.cam_units.specs.Board.{IsPlace};
    ghost use Rattle.cam_units.specs.declared.point.Spot.{Spot};

    ghost Value = { Spot × Option Bool };

    ghost view = { λ p. (p.spot, p.ink) };

    ghost invariant = { λ p. IsPlace p.spot };
}

impl Pixel {
    /// A pixel that is not decided.
    pub(crate) fn at(spot: Spot) -> Pixel
        requires { IsPlace spot }
        ensures { result ≡ (spot, None) }
    {
        Pixel { spot, ink: None }
    }

    /// Whether it is decided.
    pub(crate) fn is_decided(&self) -> bool
        ensures { IsTrue result ↔ IsSome self.now.1 }
    {
        self.ink.is_some()
    }

    /// Whether it is dark.
    pub(crate) fn is_dark(&self) -> bool
        ensures { result ≡ unwrap_or self.now.1 false }
    {
        self.ink.unwrap_or(false)
    }
}

impl Canvas for Pixel {
    ghost has = { λ _ _ _. Unit {0} };

    ghost place = { λ p _ _. p.0 };

    ghost ink = { λ p _ _. p.1 };

    fn bounds(&self) -> Bounds {
        Bounds::Closed {
            low: self.spot,
            high: self.spot,
        }
    }

    fn is_decided_in(&self, bounds: Bounds) -> bool {
        !has_place(bounds, self.spot) || self.is_decided()
    }

    fn paint(&mut self, print: Print<'_>) {
        if self.is_decided() {
            return;
        }
        if is_covered(&print.figure, self.spot) {
            self.ink = Some(print.dark);
        }
    }
}

/// Whether a figure covers a place, in half nm.
fn is_covered(figure: &Figure<'_>, spot: Spot) -> bool
    requires figure { IsSoundFigure figure.now }
    requires spot { IsPlace spot }
    ensures { IsTrue result ↔ Covers (shape_of figure.now) spot }
{
    match *figure {
        Figure::Stamp { aperture, turn, at } => aperture.covers(relative(at, spot), turn),
        Figure::Stroke(capsule) => in_capsule(spot, capsule),
        Figure::Swept(swept) => in_swept(spot, swept),
        Figure::Sweep(arc) => in_arc(spot, arc),
        Figure::Filled {
            contour,
            turn,
            offset,
        } => in_contour(spot, contour, turn, offset),
        Figure::Drilled(disc) => in_disc(spot, disc),
    }
}

/// A place as it is seen from a point, in half nm.
pub(crate) fn relative(point: Point, spot: Spot) -> Spot
    requires point { IsOnBoard point }
    requires spot { IsPlace spot }
    ensures value { result ≡ relative_to point spot }
    ensures near { IsInReach result }
{
    Spot {
        x: spot.x - 2 * point.x,
        y: spot.y - 2 * point.y,
    }
}
