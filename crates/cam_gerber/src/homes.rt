//! Objects join the innermost open block, else the open repeat, else the layer.

ghost use Rattle.std.specs.Prelude.{◌≡◌, ◌+◌, nat_eq, nat_le, is_some, IsTrue, OnOk};
ghost use Rattle.std.specs.Map.{lookup};
ghost use Rattle.cam_objects.specs.Leaves.{meaning_in, solid_tip};
ghost use Rattle.cam_objects.specs.declared.object.Object.{Object};
ghost use Rattle.cam_refusals.specs.Limits.{leaf_limit};
ghost use Rattle.cam_gerber.specs.Faults.{can_draw, is_full};
ghost use Rattle.cam_gerber.specs.Homes.{home};
ghost use Rattle.cam_gerber.specs.State.{Past};
ghost use Rattle.cam_gerber.specs.Machinery.WellMade.{IsOfAperture};
ghost use Rattle.cam_gerber.specs.Machinery.Tracking.{Keeps, TracksPlaces, Weighs};

use crate::built::Built;
use crate::running::Running;
use cam_apertures::Aperture;
use cam_objects::{Entry, Item, Object};
use cam_refusals::limits::{COUNT_LIMIT, DEPTH_LIMIT, LEAF_LIMIT};
use std::alloc::AllocError;

/// The leaves of an open repeat are counted up to this.
const LEAF_CAP: u64 = LEAF_LIMIT + 1;

/// Whether there may be so many more leaves than there are.
pub fn has_room(leaves: u64, more: u64) -> bool
    ensures { result ≡ nat_le (leaves + more) leaf_limit }
{
    leaves <= LEAF_LIMIT && more <= LEAF_LIMIT - leaves
}

/// Whether an arc or a straight line may be drawn with an aperture.
fn draws(aperture: &Aperture, arc: bool) -> bool
    ensures { result ≡ can_draw arc (solid_tip aperture.now) }
{
    if aperture.is_solid_circle() {
        return true;
    }
    if arc {
        return false;
    }
    aperture.is_solid_rect()
}

impl Built {
    /// Whether the dictionary has the number.
    pub fn is_defined(&self, number: u32) -> bool
        ensures { result ≡ is_some (lookup (nat_eq number) self.now.layer.apertures) }
    {
        match self.layer.apertures.find(number) {
            Some(_) => true,
            None => false,
        }
    }

    /// Whether the object is a flash of an aperture, which paints one leaf where it stands.
    pub fn is_of_aperture(&self, object: &Object) -> bool
        ensures { IsTrue result → IsOfAperture self.now.layer.apertures object.now }
    {
        let Object::Flash { aperture, .. } = object else {
            return false;
        };
        let Some((_, entry)) = self.layer.apertures.find(*aperture) else {
            return false;
        };
        matches!(entry, Entry::Aperture(_))
    }

    /// Whether an arc or a straight line may be drawn with the number: an arc with a solid circle alone, a line also
    /// with a solid rectangle.
    pub fn can_draw(&self, number: u32, arc: bool) -> bool
        ensures { result ≡ can_draw arc (meaning_in self.now.layer.apertures number).tip }
    {
        let Some((_, entry)) = self.layer.apertures.find(number) else {
            return false;
        };
        match entry {
            Entry::Aperture(aperture) => draws(aperture, arc),
            Entry::Block(_) => false,
        }
    }
}

/// How many leaves an object has, and how deep the blocks lie that it flashes.
#[derive(Clone, Copy)]
pub struct Weight {
    pub leaves: u64,
    pub depth: u64,
}

impl Weight {
    /// Of a stroke, a region or a flash of an aperture.
    pub const ONE: Weight = Weight {
        leaves: 1,
        depth: 0,
    };
}

impl Running {
    /// Whether the home of the next object has no room for one that weighs so much.
    pub fn is_full(&self, weight: Weight) -> bool
        ensures { (past : Past) (object : Object) → TracksPlaces past self.now
            → Weighs weight self.now.built.layer.apertures object → result ≡ is_full (home past) past object }
    {
        if let Some(block) = self.frames.blocks.front() {
            return block.objects.len() >= COUNT_LIMIT
                || !has_room(block.leaves, weight.leaves)
                || weight.depth >= DEPTH_LIMIT;
        }
        if let Some(repeat) = &self.frames.repeat {
            return repeat.objects.len() >= COUNT_LIMIT;
        }
        self.built.layer.items.len() >= COUNT_LIMIT || !has_room(self.built.leaves, weight.leaves)
    }

    /// Adds an object of so many leaves to its home.
    pub fn keep(&mut self, object: Object, leaves: u64) -> Result<(), AllocError>
        ensures { OnOk result (Keeps object leaves self.old self.new) }
    {
        if let Some(block) = self.frames.blocks.front_mut() {
            block.objects.push(object)?;
            block.leaves = block.leaves.saturating_add(leaves);
            return Ok(());
        }
        if let Some(repeat) = &mut self.frames.repeat {
            repeat.objects.push(object)?;
            repeat.leaves = repeat.leaves.saturating_add(leaves).min(LEAF_CAP);
            return Ok(());
        }
        self.built.layer.items.push(Item::One(object))?;
        self.built.leaves = self.built.leaves.saturating_add(leaves);
        Ok(())
    }
}
