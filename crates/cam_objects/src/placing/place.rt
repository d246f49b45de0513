//! Where an object is painted.

ghost use Rattle.std.specs.Prelude.{◌≡◌};
ghost use Rattle.cam_units.specs.Board.{IsOnBoard};
ghost use Rattle.cam_shapes.specs.Placing.{placed_direction};
ghost use Rattle.cam_shapes.specs.Shifting.{IsShiftable};
ghost use Rattle.cam_objects.specs.Turning.{after};

use cam_units::{Point, Turn};

/// Where the objects of a block or of a copy are painted: turned about (0, 0), then moved by an
/// offset in nm; where `dark` is false, what is dark clears there, and what is clear darkens.
#[derive(Clone, Copy)]
pub(crate) struct Place {
    pub turn: Turn,
    pub offset: Point,
    pub dark: bool,
}

impl Place {
    ghost use Rattle.cam_objects.specs.Leaves.{flashed, origin, placed, polarity_in, shifted};

    /// Where a layer's own objects are painted.
    pub(crate) fn origin() -> Place
        ensures { result ≡ origin }
    {
        Place::shifted(Point { x: 0, y: 0 })
    }

    /// Shifted by so many nm, and not turned.
    pub(crate) fn shifted(by: Point) -> Place
        ensures { result ≡ shifted by.x by.y }
    {
        Place {
            turn: Turn::R0,
            offset: by,
            dark: true,
        }
    }

    /// Where a point of an object comes to lie.
    pub(crate) fn point(&self, point: Point) -> Point
        requires offset { IsShiftable self.now.offset }
        requires point { IsOnBoard point }
        ensures { result ≡ placed self.now point }
    {
        let turned = self.turn.apply(point);
        Point {
            x: turned.x + self.offset.x,
            y: turned.y + self.offset.y,
        }
    }

    /// Whether an arc is counterclockwise there.
    pub(crate) fn direction(&self, ccw: bool) -> bool
        ensures { result ≡ placed_direction self.now.turn ccw }
    {
        match self.turn {
            Turn::R0 | Turn::R90 | Turn::R180 | Turn::R270 => ccw,
            Turn::M0 | Turn::M90 | Turn::M180 | Turn::M270 => !ccw,
        }
    }

    /// The polarity of an object there.
    pub(crate) fn polarity(&self, dark: bool) -> bool
        ensures { result ≡ polarity_in self.now.dark dark }
    {
        if self.dark { dark } else { !dark }
    }

    /// One turn after another.
    pub(crate) fn turned(self, turn: Turn) -> Turn
        ensures { result ≡ after turn self.turn }
    {
        turn.then(self.turn)
    }

    /// The place of what a flash paints.
    pub(crate) fn flashed(&self, at: Point, turn: Turn, dark: bool) -> Place
        requires offset { IsShiftable self.now.offset }
        requires at { IsOnBoard at }
        ensures { result ≡ flashed self.now at turn dark }
    {
        Place {
            turn: self.turned(turn),
            offset: self.point(at),
            dark: self.polarity(dark),
        }
    }
}
