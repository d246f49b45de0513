//! Gerber layers and drill layers: what they list, what they paint, their limits and boxes.
//!
//! A [`Layer`] is a list of file [`Attribute`]s, a [`Dictionary`] of apertures and blocks, and a list of [`Item`]s: an
//! [`Object`], or a repeat of objects. A [`DrillLayer`] is [`Tools`] and a list of [`DrillItem`]s. What a layer paints
//! are its *leaves*, one shape after another, blocks and repeats unfolded: each makes dark or clear what it covers, so
//! that the last leaf that covers a place decides. Nothing is unfolded in memory.
//!
//! ```rust
//! use cam_gerber::read_gerber;
//! use cam_units::Spot;
//!
//! // a disc of 1 mm, and another half a millimetre to its right that clears
//! let file = b"%FSLAX46Y46*%%MOMM*%%ADD10C,1*%D10*X0Y0D03*%LPC*%X500000Y0D03*M02*";
//! let layer = read_gerber(alloc, file)?;
//! assert!(rt; layer.entries().len() == 1 && layer.items().len() == 2);
//! // places are in half nm; the last leaf that covers a place decides
//! assert!(rt; layer.black_at(Spot { x: -1_000_000, y: 0 }));
//! assert!(rt; !layer.black_at(Spot { x: 0, y: 0 }));
//! // the topmost item at a place, and the topmost below that one
//! assert!(rt; layer.item_at(None, Spot { x: 0, y: 0 }, 2) == Some(1));
//! assert!(rt; layer.item_at(None, Spot { x: 0, y: 0 }, 1) == Some(0));
//! ```
//!
//! Beside the types that layers list, `checks` tells what keeps a layer sound, `image` which places are black,
//! `paint` how leaves come onto a [`Canvas`], `boxes` how far they reach, `placing` where they come to lie, and
//! `drill` all of that for drill layers.
//!
//! What a layer means stands in `specs/`: `Leaves` and `Drilling` unfold it, `Image` says which places are black and
//! `Canvases` how pixels are painted, `Bounds` the boxes, `Attributes` what file attributes are, `Soundness` and
//! `DrillSoundness` what an item may be refused for, in the order in which it is told, and which layers are sound,
//! `Weights` what counts towards the limits, `Shifting` what a move makes of items. `Tests` has the black places as a
//! test that computes, and what such tests mean; `LayerLaws` and `BoxLaws` say what holds of edits. `specs/Machinery/`
//! mirrors code.
#![tactic(auto)]

mod asking;
mod attribute;
mod boxes;
mod canvas;
mod cells;
mod checks;
mod dictionary;
mod drill;
mod drill_item;
mod drill_layer;
mod entry;
mod image;
mod item;
mod item_fault;
mod laws;
mod layer;
mod limits;
mod object;
mod paint;
mod placing;
mod points;
mod tip;
mod tools;

pub use asking::enclosed::is_enclosed;
pub use attribute::Attribute;
pub use boxes::first_copies::FirstCopies;
pub use boxes::first_copy::FirstCopy;
pub use boxes::item_boxes::ItemBoxes;
pub use boxes::shapes::squared_length;
pub use cam_shapes::{Contour, Seg, Segments};
pub use canvas::{Canvas, Figure, Print};
pub use cells::item_list::BoxedItems;
pub use cells::kept::{ItemCells, near_end};
pub use cells::numbers::ItemNumbers;
pub use checks::attributes::is_attribute;
pub use checks::inside::is_place;
pub use dictionary::Dictionary;
pub use drill::item_boxes::DrillItemBoxes;
pub use drill_item::DrillItem;
pub use drill_layer::DrillLayer;
pub use entry::Entry;
pub use item::Item;
pub use item_fault::ItemFault;
pub use laws::{
    attributes_stay_sound, covers_lie_in_their_bounds, drill_layers_stay_sound,
    edits_stay_in_their_bounds, last_leaves_make_the_image, layers_stay_sound,
    painting_in_order_makes_the_image, tests_tell_covers, tests_tell_limits,
    tests_tell_what_is_inside, topmost_items_make_the_image, turns_follow_their_matrices,
};
pub use layer::Layer;
pub use object::{Object, Objects};
pub use points::Points;
pub use tools::Tools;
