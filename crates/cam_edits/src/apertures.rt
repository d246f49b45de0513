//! Objects with another aperture.

ghost use Rattle.std.specs.Prelude.{◌≡◌, unwrap_or};
ghost use Rattle.cam_edits.specs.Machinery.Judging.{other_aperture};
ghost use Rattle.cam_edits.specs.Steps.{with_aperture, with_object};

use cam_objects::{Item, Object};

/// The flash, draw or arc with another aperture, or `None` for what has none. Takes no memory.
pub(crate) fn other_aperture(item: &Item, n: u32) -> Option<Item>
    ensures value { result ≡ other_aperture n item.now }
    ensures changed { with_object (with_aperture n) item.now ≡ unwrap_or result item.now }
{
    match item {
        Item::One(Object::Flash { at, turn, dark, .. }) => Some(Item::One(Object::Flash {
            aperture: n,
            at: *at,
            turn: *turn,
            dark: *dark,
        })),
        Item::One(
            Object::Draw {
                from,
                to,
                turn,
                dark,
                ..
            },
        ) => Some(Item::One(Object::Draw {
            aperture: n,
            from: *from,
            to: *to,
            turn: *turn,
            dark: *dark,
        })),
        Item::One(
            Object::Arc {
                ccw,
                dark,
                from,
                to,
                centre,
                ..
            },
        ) => Some(Item::One(Object::Arc {
            ccw: *ccw,
            dark: *dark,
            aperture: n,
            from: *from,
            to: *to,
            centre: *centre,
        })),
        Item::One(Object::Region { .. }) => None,
        Item::Repeat { .. } => None,
    }
}
