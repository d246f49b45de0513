//! Layers of either kind, and how they are painted, item by item.

ghost use Rattle.std.specs.Prelude.{◌≡◌, ◌<◌, ◌≤◌, ◌∷◌, ℕ, [], IfSome, IsTrue, List, Some, length, slice_get, slice_index_or};
ghost use Rattle.cam_units.specs.Boxes.{HaveCommonPlace, Holds};
ghost use Rattle.cam_units.specs.declared.bounds.Bounds.{Bounds};
ghost use Rattle.cam_units.specs.declared.point.Spot.{Spot};
ghost use Rattle.cam_objects.specs.Bounds.{bounds_of};
ghost use Rattle.cam_objects.specs.Canvases.{Paints};
ghost use Rattle.cam_objects.specs.Cells.{AreCellsOf, AreFirstCopiesOf, box_at};
ghost use Rattle.cam_objects.specs.Image.{IsUncovered};
ghost use Rattle.cam_objects.specs.Leaves.{Filled, item_leaves, leaf, meaning_in};
ghost use Rattle.cam_objects.specs.Soundness.{HasSoundItems};
ghost use Rattle.cam_objects.specs.declared.item.Item.{Item};
ghost use Rattle.cam_objects.specs.declared.item.Item.TheVariants.{One};
ghost use Rattle.cam_objects.specs.declared.object.Object.TheVariants.{Region};
ghost use Rattle.cam_tiles.specs.Machinery.Parts.{IsSoundContour};
ghost use Rattle.cam_tiles.specs.Machinery.Shown.{IsReady, leaves_by_item, leaves_of, lists_of};

use cam_objects::{
    Canvas, DrillItemBoxes, DrillLayer, FirstCopies, Item, ItemBoxes, ItemCells, Layer, Object,
    near_end,
};
use cam_shapes::Contour;
use cam_units::Bounds;

/// A layer of either kind, and perhaps the cells of its items and the first copies of its repeats.
#[derive(Clone, Copy)]
pub(crate) enum Shown<'a> {
    Gerber {
        layer: &'a Layer,
        cells: Option<&'a ItemCells>,
        copies: Option<&'a FirstCopies>,
    },
    Drill {
        layer: &'a DrillLayer,
        cells: Option<&'a ItemCells>,
    },
}

/// Reads the boxes of the items of a layer of either kind, one after another.
#[derive(Drop)]
pub(crate) enum Boxes<'a> {
    Gerber(ItemBoxes<'a>),
    Drill(DrillItemBoxes<'a>),
}

impl<'a> Boxes<'a> {
    /// The box of the item at a place of the list, counted from 0.
    pub(crate) fn read(&mut self, place: usize) -> Bounds
        requires { place < length (lists_of self.old) }
        ensures value { result ≡ bounds_of (slice_index_or (lists_of self.old) place []) }
        ensures lists { lists_of self.new ≡ lists_of self.old }
    {
        match self {
            Boxes::Gerber(boxes) => boxes.read(place),
            Boxes::Drill(boxes) => boxes.read(place),
        }
    }

    /// Whether the item at a place of the list, counted from 0, is a draw of which one sees by its line alone that it covers
    /// no place of a box, in half nm.
    pub(crate) fn line_misses(&mut self, place: usize, within: Bounds) -> bool
        requires { place < length (lists_of self.old) }
        ensures off { IsTrue result → (s : Spot) → Holds within s
            → IsUncovered (slice_index_or (lists_of self.old) place []) s }
        ensures lists { lists_of self.new ≡ lists_of self.old }
    {
        match self {
            Boxes::Gerber(boxes) => boxes.line_misses(place, within),
            Boxes::Drill(_) => false,
        }
    }
}

impl<'a> Shown<'a> {
    /// How many items it has.
    pub(crate) fn len(&self) -> usize
        ensures count { result ≡ length (leaves_by_item self.now) }
        ensures few { IsReady self.now → result ≤ 1000000 }
    {
        match self {
            Shown::Gerber { layer, .. } => layer.items.len(),
            Shown::Drill { layer, .. } => layer.items.len(),
        }
    }

    /// The place behind the last item before an end that may have a place in common with a box, or 0: the items from
    /// there to the end have none.
    pub(crate) fn near_end(&self, end: usize, near: Bounds) -> usize
        requires { IsReady self.now }
        ensures within { result ≤ end }
        ensures apart { (k : ℕ) → result ≤ k → k < end → k < length (leaves_by_item self.now)
            → ¬ HaveCommonPlace (bounds_of (slice_index_or (leaves_by_item self.now) k [])) near }
    {
        match self {
            Shown::Gerber { cells, .. } => near_end(*cells, end, near),
            Shown::Drill { cells, .. } => near_end(*cells, end, near),
        }
    }

    /// Reads the boxes of the items.
    pub(crate) fn boxes(&self) -> Boxes<'_>
        requires { IsReady self.now }
        ensures { lists_of result ≡ leaves_by_item self.now }
    {
        match self {
            Shown::Gerber { layer, copies, .. } => Boxes::Gerber(layer.boxes_by(*copies)),
            Shown::Drill { layer, .. } => Boxes::Drill(layer.boxes()),
        }
    }

    /// Paints all items, from the last one on.
    pub(crate) fn paint<C: Canvas>(&self, canvas: &mut C)
        requires { IsReady self.now }
        ensures { Paints C.has C.place C.ink canvas.old (leaves_of self.now) canvas.new }
    {
        match self {
            Shown::Gerber { layer, .. } => layer.paint(canvas),
            Shown::Drill { layer, .. } => layer.paint(canvas),
        }
    }

    /// Paints the item at a place of the list, counted from 0, from its last leaf on: a repeat by its first copy, where
    /// that is known.
    #[inline]
    pub(crate) fn paint_item<C: Canvas>(&self, place: usize, canvas: &mut C)
        requires ready { IsReady self.now }
        requires within { place < length (leaves_by_item self.now) }
        ensures { Paints C.has C.place C.ink canvas.old (slice_index_or (leaves_by_item self.now) place []) canvas.new }
    {
        match self {
            Shown::Gerber { layer, copies, .. } => {
                if let Some(copies) = copies {
                    if let Some(first) = copies.at(place) {
                        layer.paint_repeat(place, first, canvas);
                        return;
                    }
                }
                layer.paint_item(place, canvas);
            }
            Shown::Drill { layer, .. } => layer.paint_item(place, canvas),
        }
    }

    /// The contour and the polarity of the item at a place of the list, counted from 0, if it is one region.
    pub(crate) fn region(&self, place: usize) -> Option<(&Contour, bool)>
        requires ready { IsReady self.now }
        requires within { place < length (leaves_by_item self.now) }
        ensures sound { IfSome result (λ region. IsSoundContour region.0.now) }
        ensures leaves { IfSome result (λ region. slice_index_or (leaves_by_item self.now) place []
            ≡ leaf (Filled region.0.now) region.1 ∷ []) }
    {
        match self {
            Shown::Gerber { layer, .. } => match &layer.items[place] {
                Item::One(Object::Region { contour, dark }) => Some((contour, *dark)),
                _ => None,
            },
            Shown::Drill { .. } => None,
        }
    }
}
