//! Layers: what they refuse and have room for, the boxes of items, and what lies at a place (Gerber Layer Format
//! Specification, "Graphics objects", "Block Aperture (AB)" and "Step and Repeat (SR)").

ghost use Rattle.std.specs.Prelude.{IfSome};
ghost use Rattle.cam_objects.specs.Cells.{AreCellsOf, item_boxes};
ghost use Rattle.cam_objects.specs.Soundness.{IsSound};

mod boxes;
pub(crate) mod building;
mod dictionaries;
mod forms;
mod limits;
mod pointing;
mod reaches;
pub(crate) mod rows;

use crate::places::{box_of, place};
use crate::tables::each_in;
use boxes::BOXES;
use building::{dictionary, entry, item, layer};
use cam_objects::{ItemCells, Layer};
use cam_units::{Bounds, Turn};
use dictionaries::BASE;
use forms::FORMS;
use limits::{ENTRIES, ROOMS};
use pointing::POINTED;
use reaches::REACHES;
use rows::{Added, Boxed, Checked, Drawn, Enclosed, Filled, Found, Listed, Pointed};
use std::alloc::{AllocError, Global};
use std::slice;
use std::test::Fail;

/// A flash.
const DOT: Listed = Listed::One(Drawn::Flash(10, (0, 0), Turn::R0, true));

/// A number of items, and whether there is room behind them.
const COUNTS: &[(u32, bool)] = &[(0, true), (999_999, true), (1_000_000, false)];

/// The box of these sides, and the empty one of none.
fn box_or_empty(sides: Option<[i64; 4]>) -> Bounds {
    match sides {
        Some(sides) => box_of(sides),
        None => Bounds::Empty,
    }
}

/// Whether the topmost items are found, by the cells of the items where they are known.
fn are_found(layer: &Layer, cells: Option<&ItemCells>, rows: &[Found]) -> bool
    requires sound { IsSound layer.now }
    requires cells { IfSome cells
        (λ kept. AreCellsOf (item_boxes layer.now.apertures layer.now.items.items) kept.now) }
{
    for (at, before, wanted) in rows {
        let Some(spot) = place(*at) else {
            return false;
        };
        if layer.item_at(cells, spot, *before) != *wanted {
            return false;
        }
    }
    true
}

/// Whether the items in the boxes are found.
fn are_enclosed(layer: &Layer, rows: &[Enclosed]) -> bool
    requires { IsSound layer.now }
{
    for (sides, from, wanted) in rows {
        if layer.item_in(box_of(*sides), *from) != *wanted {
            return false;
        }
    }
    true
}

/// Whether all that is asked of the layer is answered so.
fn answers(alloc: Global, layer: &Layer, row: &Pointed) -> bool
    requires { IsSound layer.now }
{
    let (cells, _) = ItemCells::of(alloc, &mut layer.boxes());
    are_found(layer, None, row.found)
        && are_found(layer, Some(&cells), row.found)
        && are_enclosed(layer, row.enclosed)
        && layer.bounds() == box_or_empty(row.whole)
}

/// Whether the layer is made, and all that is asked of it is answered so.
fn is_pointed(alloc: Global, row: &Pointed) -> Result<bool, AllocError> {
    match layer(alloc, row.entries, row.items)? {
        Some(layer) => Ok(answers(alloc, &layer, row)),
        None => Ok(false),
    }
}

/// Whether the row's item is accepted beside its entries, or refused so.
fn is_checked(alloc: Global, row: &Checked) -> Result<bool, AllocError> {
    let item = item(alloc, &row.1)?;
    match dictionary(alloc, row.0)? {
        Some(layer) => Ok(layer.check_item(&item) == row.2),
        None => Ok(false),
    }
}

/// Whether the row's entry may be added beside the others, or is refused, as the row has it.
fn is_added(alloc: Global, row: &Added) -> Result<bool, AllocError> {
    let entry = entry(alloc, &row.2)?;
    match dictionary(alloc, row.0)? {
        Some(layer) => Ok(layer.check_entry(row.1, &entry) == row.3),
        None => Ok(false),
    }
}

/// Whether the layer of the row's items has room for one more, or has none, as the row has it.
fn is_filled(alloc: Global, row: &Filled) -> Result<bool, AllocError> {
    let item = item(alloc, &row.2)?;
    match layer(alloc, row.0, row.1)? {
        Some(layer) => Ok(layer.has_room(&item) == row.3),
        None => Ok(false),
    }
}

/// Whether the row's item has its box, as it stands and as the first one of the layer.
fn has_box(alloc: Global, layer: &Layer, row: &Boxed) -> Result<bool, AllocError>
    requires { IsSound layer.now }
{
    let item = item(alloc, &row.1)?;
    if layer.check_item(&item).is_err() || layer.items.is_empty() {
        return Ok(false);
    }
    let wanted = box_or_empty(row.2);
    Ok(layer.bounds_of(&item) == wanted && layer.item_bounds(0) == wanted)
}

/// Whether the item has the wanted box, as it stands and as the only one of a layer.
fn is_bounded(alloc: Global, row: &Boxed) -> Result<bool, AllocError> {
    match layer(alloc, row.0, slice::from_ref(&row.1))? {
        Some(layer) => has_box(alloc, &layer, row),
        None => Ok(false),
    }
}

/// Whether the layer has room for a dot behind so many more.
fn has_room_behind(alloc: Global, layer: &mut Layer, count: u32) -> Result<bool, AllocError> {
    for _ in 0..count {
        layer.items.push(item(alloc, &DOT)?)?;
    }
    Ok(layer.has_room(&item(alloc, &DOT)?))
}

/// The same of a layer with so many dots.
fn is_counted(alloc: Global, &(count, wanted): &(u32, bool)) -> Result<bool, AllocError> {
    match dictionary(alloc, BASE)? {
        Some(mut layer) => Ok(has_room_behind(alloc, &mut layer, count)? == wanted),
        None => Ok(false),
    }
}

#[test]
fn checks_of_forms(rt: HostRuntime) -> Result<(), Fail> {
    each_in(rt.alloc(), FORMS, is_checked)
}

#[test]
fn checks_of_reaches(rt: HostRuntime) -> Result<(), Fail> {
    each_in(rt.alloc(), REACHES, is_checked)
}

#[test]
fn checks_of_entries(rt: HostRuntime) -> Result<(), Fail> {
    each_in(rt.alloc(), ENTRIES, is_added)
}

#[test]
fn rooms(rt: HostRuntime) -> Result<(), Fail> {
    each_in(rt.alloc(), ROOMS, is_filled)?;
    each_in(rt.alloc(), COUNTS, is_counted)
}

#[test]
fn items(rt: HostRuntime) -> Result<(), Fail> {
    each_in(rt.alloc(), BOXES, is_bounded)?;
    each_in(rt.alloc(), POINTED, is_pointed)
}
