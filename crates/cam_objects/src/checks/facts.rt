//! What is kept beside an entry of a dictionary.

ghost use Rattle.std.specs.Prelude.{◌≡◌, ◌+◌, ◌*◌, ◌≤◌, fold, length, max, sum_by};
ghost use Rattle.cam_refusals.specs.Limits.{depth_limit, leaf_limit};
ghost use Rattle.cam_objects.specs.Machinery.Facts.{facts_of, no_facts};
ghost use Rattle.cam_objects.specs.Soundness.{IsSoundEntry};
ghost use Rattle.cam_objects.specs.Weights.{block_count, block_depth, weight_in};

use crate::boxes::items::block_bounds;
use crate::checks::inside::painted_boxes;
use crate::dictionary::Dictionary;
use crate::entry::Entry;
use crate::object::Object;
use cam_units::{Bounds, Spot, Turn};

/// What a check and a picture need of an entry, found once when it joins the dictionary: of what one flash of it
/// paints at (0, 0), neither mirrored nor turned.
#[derive(Clone, Copy)]
pub(crate) struct Facts {
    /// How many leaves it adds to its flash.
    pub leaves: u32,
    /// How many blocks lie in one another.
    pub depth: u32,
    /// The box of the control points, in half nm.
    pub points: Bounds,
    /// The box of what is covered, in half nm.
    pub bounds: Bounds,
}

/// What is kept of a number that no entry has.
pub(crate) static NO_FACTS: Facts = Facts {
    leaves: 0,
    depth: 0,
    points: Bounds::Empty,
    bounds: Bounds::Empty,
};

impl Facts {
    /// Of an entry that joins these.
    pub(crate) fn of(entries: &Dictionary, entry: &Entry) -> Facts
        requires { IsSoundEntry entries.now entry.now }
        ensures { result ≡ facts_of entries.now entry.now }
    {
        match entry {
            Entry::Aperture(aperture) => {
                let at = Spot { x: 0, y: 0 };
                Facts {
                    leaves: 0,
                    depth: 0,
                    points: Bounds::Closed { low: at, high: at },
                    bounds: aperture.bounds(Turn::R0),
                }
            }
            Entry::Block(objects) => {
                let objects = objects.as_slice();
                Facts {
                    leaves: leaf_count(entries, objects) as u32,
                    depth: depth(entries, objects) as u32,
                    points: painted_boxes(entries, objects),
                    bounds: block_bounds(entries, objects),
                }
            }
        }
    }
}

/// How many leaves the objects of a block count.
pub(crate) fn leaf_count(entries: &Dictionary, objects: &[Object]) -> u64
    requires { length objects.now ≤ leaf_limit }
    ensures value { result ≡ block_count (weight_in entries.now) objects.now }
    ensures few { result ≤ length objects.now * (leaf_limit + 1) }
{
    let mut leaves = 0;
    for object in objects {
        leaves += entries.leaf_count(object);
    }
    leaves
}

/// How deep a block of the objects is.
pub(crate) fn depth(entries: &Dictionary, objects: &[Object]) -> u64
    ensures value { result ≡ block_depth (weight_in entries.now) objects.now }
    ensures shallow { result ≤ depth_limit + 1 }
{
    let mut deepest = 0;
    for object in objects {
        deepest = deepest.max(entries.depth(object));
    }
    deepest + 1
}
