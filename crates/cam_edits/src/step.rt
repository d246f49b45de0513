//! Steps that edit a layer.

ghost use Rattle.std.specs.Prelude.{◌≡◌, ◌↔◌, IsTrue, count_by};
ghost use Rattle.cam_objects.specs.Contents.{Content, content_of};
ghost use Rattle.cam_shapes.specs.Shifting.{IsShiftable};
ghost use Rattle.cam_edits.specs.Moving.{IsMovableItem};
ghost use Rattle.cam_edits.specs.Places.{HasAt};
ghost use Rattle.cam_edits.specs.Steps.{
  HasAperture,
  HasRoom,
  IsFit,
  IsOne,
  after_step,
  aperture_of,
  inverse_step,
  is_insertion,
  polarity_of,
  puts_attribute,
  with_aperture,
  with_object,
  with_polarity,
};

use crate::carrying::{carry, put};
use crate::moving::{can_move_item, way};
use crate::reversible::Reversible;
use cam_objects::{Attribute, Item, Layer, Object};
use cam_units::{Items, Point};
use std::alloc::AllocError;
use std::mem;

/// A change of a layer's items or of its file attributes, which turns into its inverse when it is played. Places are
/// counted from 0.
#[derive(Drop)]
pub enum Step {
    /// The item stands at place `k`, those behind it one place further.
    Insert { k: usize, item: Item },
    /// The list without place `k`.
    Delete { k: usize },
    /// The control points of item `k` are shifted by `dx` nm to the right and `dy` nm up.
    Move { k: usize, dx: i64, dy: i64 },
    /// Item `k` is taken out, and then stands at place `m`.
    Reorder { k: usize, m: usize },
    /// The flash, draw or arc at place `k` gets the aperture of that number.
    Aperture { k: usize, n: u32 },
    /// The object at place `k` becomes dark or clear.
    Polarity { k: usize, dark: bool },
    /// The attribute stands at place `k`, those behind it one place further.
    PutAttribute { k: usize, attribute: Attribute },
    /// The attributes without place `k`.
    TakeAttribute { k: usize },
    /// The attribute at place `k` takes the fields, empty or with a comma before them.
    SetFields { k: usize, fields: Items<u8> },
}

impl Reversible for Step {
    ghost use Rattle.cam_edits.specs.Machinery.StepLaws.{
      answer_fits,
      gives_back_content,
      gives_back_step,
      last_has_room,
    };

    type Doc = Layer;

    ghost Content = { Content };

    ghost content = { content_of };

    ghost after = { after_step };

    ghost inverse = { inverse_step };

    ghost is_fit = { IsFit };

    ghost has_room = { HasRoom };

    ghost answer_fits = { answer_fits };

    ghost gives_back_content = { gives_back_content };

    ghost gives_back_step = { gives_back_step };

    ghost last_has_room = { last_has_room };

    fn fits(&self, layer: &Layer) -> bool {
        match self {
            Step::Insert { k, .. } => *k <= layer.items.len(),
            Step::Delete { k } => *k < layer.items.len(),
            Step::Move { k, dx, dy } => can_move_at(&layer.items, *k, way(*dx, *dy)),
            Step::Reorder { k, m } => *k < layer.items.len() && *m < layer.items.len(),
            Step::Aperture { k, .. } => has_aperture_at(&layer.items, *k),
            Step::Polarity { k, .. } => is_object_at(&layer.items, *k),
            Step::PutAttribute { k, .. } => *k <= layer.attributes.len(),
            Step::TakeAttribute { k } => *k < layer.attributes.len(),
            Step::SetFields { k, .. } => *k < layer.attributes.len(),
        }
    }

    fn room(group: &[Step], layer: &mut Layer) -> Result<(), AllocError> {
        layer.items.reserve(insertion_count(group))?;
        layer.attributes.reserve(attribute_count(group))
    }

    fn play(self, layer: &mut Layer) -> Step {
        match self {
            Step::Insert { k, item } => {
                put(&mut layer.items, k, item);
                Step::Delete { k }
            }
            Step::Delete { k } => Step::Insert {
                k,
                item: layer.items.remove(k),
            },
            Step::Move { k, dx, dy } => {
                layer.items[k].shift(way(dx, dy));
                Step::Move {
                    k,
                    dx: -dx,
                    dy: -dy,
                }
            }
            Step::Reorder { k, m } => {
                carry(layer.items.as_mut_slice(), k, m);
                Step::Reorder { k: m, m: k }
            }
            Step::Aperture { k, n } => {
                let n = set_aperture(&mut layer.items[k], n);
                Step::Aperture { k, n }
            }
            Step::Polarity { k, dark } => {
                let dark = set_polarity(&mut layer.items[k], dark);
                Step::Polarity { k, dark }
            }
            Step::PutAttribute { k, attribute } => {
                put(&mut layer.attributes, k, attribute);
                Step::TakeAttribute { k }
            }
            Step::TakeAttribute { k } => Step::PutAttribute {
                k,
                attribute: layer.attributes.remove(k),
            },
            Step::SetFields { k, fields } => {
                let fields = mem::replace(&mut layer.attributes[k].fields, fields);
                Step::SetFields { k, fields }
            }
        }
    }
}

/// How many of the steps insert an item.
fn insertion_count(group: &[Step]) -> usize
    ensures { result ≡ count_by is_insertion group.now }
{
    let mut count = 0;
    for step in group {
        if matches!(step, Step::Insert { .. }) {
            count += 1;
        }
    }
    count
}

/// How many of the steps put an attribute.
fn attribute_count(group: &[Step]) -> usize
    ensures { result ≡ count_by puts_attribute group.now }
{
    let mut count = 0;
    for step in group {
        if matches!(step, Step::PutAttribute { .. }) {
            count += 1;
        }
    }
    count
}

/// Whether there is an item at the place that can be moved so, and back.
fn can_move_at(items: &[Item], k: usize, by: Point) -> bool
    ensures { IsTrue result ↔ IsShiftable by × HasAt (IsMovableItem by) items.now k }
{
    match items.get(k) {
        Some(item) => can_move_item(item, by),
        None => false,
    }
}

/// Whether there is a flash, a draw or an arc at the place.
fn has_aperture_at(items: &[Item], k: usize) -> bool
    ensures { IsTrue result ↔ HasAt (IsOne HasAperture) items.now k }
{
    match items.get(k) {
        Some(Item::One(Object::Region { .. })) => false,
        Some(Item::One(_)) => true,
        Some(Item::Repeat { .. }) => false,
        None => false,
    }
}

/// Whether there is an object at the place, and no repeat.
fn is_object_at(items: &[Item], k: usize) -> bool
    ensures { IsTrue result ↔ HasAt (IsOne (λ _. Unit {0})) items.now k }
{
    match items.get(k) {
        Some(item) => matches!(item, Item::One(_)),
        None => false,
    }
}

/// Gives the object another aperture. The answer is the number before.
fn set_aperture(item: &mut Item, n: u32) -> u32
    requires { IsOne HasAperture item.old }
    ensures item { item.new ≡ with_object (with_aperture n) item.old }
    ensures before { IsOne (λ object. result ≡ aperture_of object) item.old }
{
    match item {
        Item::One(Object::Flash { aperture, .. }) => mem::replace(aperture, n),
        Item::One(Object::Draw { aperture, .. }) => mem::replace(aperture, n),
        Item::One(Object::Arc { aperture, .. }) => mem::replace(aperture, n),
        Item::One(Object::Region { .. }) => n,
        Item::Repeat { .. } => n,
    }
}

/// Makes the object dark or clear. The answer is its polarity before.
fn set_polarity(item: &mut Item, dark: bool) -> bool
    requires { IsOne (λ _. Unit {0}) item.old }
    ensures item { item.new ≡ with_object (with_polarity dark) item.old }
    ensures before { IsOne (λ object. result ≡ polarity_of object) item.old }
{
    match item {
        Item::One(Object::Flash { dark: now, .. }) => mem::replace(now, dark),
        Item::One(Object::Draw { dark: now, .. }) => mem::replace(now, dark),
        Item::One(Object::Arc { dark: now, .. }) => mem::replace(now, dark),
        Item::One(Object::Region { dark: now, .. }) => mem::replace(now, dark),
        Item::Repeat { .. } => dark,
    }
}
