//! How many leaves there are, and whether there is room for more.

ghost use Rattle.std.specs.Prelude.{
  ◌≡◌,
  ◌+◌,
  ◌*◌,
  ◌<◌,
  ◌≤◌,
  nat_le,
  ◌&&◌,
  ◌++◌,
  ◌∷◌,
  ◌↔◌,
  [],
  IfNone,
  IfSome,
  IsTrue,
  length,
  slice_set,
  sum_by,
};
ghost use Rattle.std.specs.List.{list_all};
ghost use Rattle.cam_refusals.specs.Limits.{count_limit, leaf_limit};
ghost use Rattle.cam_objects.specs.Soundness.{HasSoundItems, IsSoundItem, KeepsLimits, has_few_segs};
ghost use Rattle.cam_objects.specs.Weights.{block_count, item_count, weight_in};

use crate::checks::facts::leaf_count;
use crate::dictionary::Dictionary;
use crate::item::Item;
use crate::layer::Layer;
use crate::object::Object;
use cam_refusals::limits::{COUNT_LIMIT, LEAF_LIMIT};

/// Whether a repeat of so many copies is within the limits.
pub(crate) fn fits_repeat(entries: &Dictionary, copies: u64, objects: &[Object]) -> bool
    ensures { result ≡ (list_all has_few_segs objects.now
        && (nat_le (length objects.now) count_limit
        && nat_le (copies * block_count (weight_in entries.now) objects.now) leaf_limit)) }
{
    if objects.len() > COUNT_LIMIT {
        return false;
    }
    objects.iter().all(has_few_segs)
        && room_behind(leaf_count(entries, objects), copies, LEAF_LIMIT).is_some()
}

/// Whether the contour of a region has at most 1,000,000 segments.
pub(crate) fn has_few_segs(object: &Object) -> bool
    ensures { result ≡ has_few_segs object.now }
{
    match object {
        Object::Region { contour, .. } => contour.segs.as_slice().len() <= COUNT_LIMIT,
        _ => true,
    }
}

/// The room that is left behind so many copies of so many leaves, if there is room for them.
fn room_behind(leaves: u64, copies: u64, room: u64) -> Option<u64>
    ensures fits { IfSome result (λ left. left + copies * leaves ≡ room) }
    ensures past { IfNone result (room < copies * leaves) }
{
    let all = u128::from(copies) * u128::from(leaves);
    if all <= u128::from(room) {
        return Some(room - all as u64);
    }
    None
}

/// The room that is left behind an item, if there is room for it.
fn room_behind_item(entries: &Dictionary, item: &Item, room: u64) -> Option<u64>
    requires { room ≤ leaf_limit }
    ensures fits { IfSome result (λ left. left + item_count (weight_in entries.now) item.now ≡ room) }
    ensures past { IfNone result (room < item_count (weight_in entries.now) item.now) }
{
    match item {
        Item::One(object) => room_behind(entries.leaf_count(object), 1, room),
        Item::Repeat {
            columns,
            rows,
            objects,
            ..
        } => {
            let copies = u64::from(*columns) * u64::from(*rows);
            let objects = objects.as_slice();
            if copies == 0 {
                return Some(room);
            }
            if objects.len() as u64 > LEAF_LIMIT {
                return None;
            }
            room_behind(leaf_count(entries, objects), copies, room)
        }
    }
}

/// The room for leaves that is left behind the items of a layer, if there is room for them.
fn room_behind_items(entries: &Dictionary, items: &[Item]) -> Option<u64>
    ensures fits { IfSome result (λ left. left + sum_by (item_count (weight_in entries.now)) items.now ≡ leaf_limit) }
    ensures past { IfNone result (leaf_limit < sum_by (item_count (weight_in entries.now)) items.now) }
{
    let mut room = LEAF_LIMIT;
    for item in items {
        match room_behind_item(entries, item, room) {
            Some(left) => room = left,
            None => return None,
        }
    }
    Some(room)
}

impl Layer {
    /// Whether the layer with the item behind the others keeps its limits. Goes through all items and counts their
    /// leaves.
    pub fn has_room(&self, item: &Item) -> bool
        ensures { IsTrue result ↔ KeepsLimits self.now.apertures (self.now.items.items ++ item.now ∷ []) }
    {
        match room_behind_items(&self.apertures, &self.items) {
            Some(room) => self.has_room_beside(LEAF_LIMIT - room, item),
            None => false,
        }
    }

    /// How many leaves the layer has. Goes through all items.
    pub fn leaf_count(&self) -> u64
        requires { HasSoundItems self.now }
        ensures { result ≡ sum_by (item_count (weight_in self.now.apertures)) self.now.items.items }
    {
        LEAF_LIMIT - room_behind_items(&self.apertures, &self.items).unwrap()
    }

    /// How many leaves a sound item has. Goes through no block.
    pub fn item_leaf_count(&self, item: &Item) -> u64
        requires { IsSoundItem self.now.apertures item.now }
        ensures { result ≡ item_count (weight_in self.now.apertures) item.now }
    {
        LEAF_LIMIT - room_behind_item(&self.apertures, item, LEAF_LIMIT).unwrap()
    }

    /// What `has_room` answers, where it is known how many leaves the layer has: goes through no other item.
    pub fn has_room_beside(&self, leaves: u64, item: &Item) -> bool
        requires { leaves ≡ sum_by (item_count (weight_in self.now.apertures)) self.now.items.items }
        ensures { IsTrue result ↔ KeepsLimits self.now.apertures (self.now.items.items ++ item.now ∷ []) }
    {
        if self.items.len() >= COUNT_LIMIT || leaves > LEAF_LIMIT {
            return false;
        }
        room_behind_item(&self.apertures, item, LEAF_LIMIT - leaves).is_some()
    }

    /// Whether the layer, of which it is known how many leaves it has, keeps its limits with the item in place of the one
    /// that stands at a place, counted from 0. Goes through no other item.
    pub fn has_room_at_beside(&self, leaves: u64, place: usize, item: &Item) -> bool
        requires sound { HasSoundItems self.now }
        requires within { place < length self.now.items.items }
        requires leaves { leaves ≡ sum_by (item_count (weight_in self.now.apertures)) self.now.items.items }
        ensures { IsTrue result ↔ KeepsLimits self.now.apertures (slice_set self.now.items.items place item.now) }
    {
        let before = self.item_leaf_count(&self.items[place]);
        room_behind_item(&self.apertures, item, LEAF_LIMIT - (leaves - before)).is_some()
    }
}
