//! Drill layers and their images (XNC Format Specification, "Drilling" and "Routing").

ghost use Rattle.std.specs.Prelude.{IfOk, IfSome, OnOk};
ghost use Rattle.cam_objects.specs.Cells.{AreCellsOf, drill_item_boxes};
ghost use Rattle.cam_objects.specs.DrillSoundness.{IsSoundDrillLayer};

mod rows;

use crate::places::{At, box_of, place};
use crate::tables::each_in;
use cam_objects::{DrillItem, DrillLayer, ItemCells, ItemFault, Points, drill_layers_stay_sound};
use cam_units::{Nm, Point};
use rows::{
    Boxed, Checked, DRILL_BOXES, DRILL_ITEMS, DRILL_POINTED, DRILLINGS, Drilled, Drilling, KITS,
    Kit, LONG_ROUTS, LongRout, Offered, Pointed,
};
use std::alloc::{AllocError, Global};
use std::slice;
use std::test::Fail;

fn points_of(alloc: Global, places: &[At]) -> Result<Points, AllocError> {
    let mut points = Vec::new(alloc);
    for &(x, y) in places {
        points.push(Point { x, y })?;
    }
    Ok(Points::from_vec(points))
}

fn item_of(alloc: Global, drilled: &Drilled) -> Result<DrillItem, AllocError> {
    match *drilled {
        Drilled::Hit(tool, (x, y)) => Ok(DrillItem::Hit {
            tool,
            at: Point { x, y },
        }),
        Drilled::Rout(tool, places) => Ok(DrillItem::Rout {
            tool,
            points: points_of(alloc, places)?,
        }),
    }
}

/// A rout of so many points.
fn long_rout(alloc: Global, times: u32) -> Result<DrillItem, AllocError> {
    let mut points = Vec::new(alloc);
    for _ in 0..times {
        points.push(Point { x: 0, y: 0 })?;
    }
    Ok(DrillItem::Rout {
        tool: 1,
        points: Points::from_vec(points),
    })
}

/// No tool and no item.
fn no_drills(alloc: Global) -> DrillLayer
    ensures { IsSoundDrillLayer result }
{
    DrillLayer::new(alloc)
}

/// Puts the tool behind the others, and tells whether it may be added.
fn add_tool(layer: &mut DrillLayer, tool: u16, diameter: Nm) -> Result<bool, AllocError>
    requires { IsSoundDrillLayer layer.old }
    ensures { OnOk result (IsSoundDrillLayer layer.new) }
{
    drill_layers_stay_sound();
    if !layer.check_tool(tool, diameter) {
        return Ok(false);
    }
    layer.add_tool(tool, diameter)?;
    Ok(true)
}

/// Puts the tools behind the others, and tells whether each may be added.
fn add_tools(layer: &mut DrillLayer, tools: Kit) -> Result<bool, AllocError>
    requires { IsSoundDrillLayer layer.old }
    ensures { OnOk result (IsSoundDrillLayer layer.new) }
{
    for &(tool, diameter) in tools {
        if !add_tool(layer, tool, Nm(diameter))? {
            return Ok(false);
        }
    }
    Ok(true)
}

/// Puts the item behind the others, and tells whether it is accepted.
fn add_item(layer: &mut DrillLayer, item: DrillItem) -> Result<bool, AllocError>
    requires { IsSoundDrillLayer layer.old }
    ensures { OnOk result (IsSoundDrillLayer layer.new) }
{
    drill_layers_stay_sound();
    if layer.check_item(&item).is_err() {
        return Ok(false);
    }
    if !layer.has_room(&item) {
        return Ok(false);
    }
    layer.push(item)?;
    Ok(true)
}

/// Puts the items behind the others, and tells whether each is accepted.
fn add_items(alloc: Global, layer: &mut DrillLayer, items: &[Drilled]) -> Result<bool, AllocError>
    requires { IsSoundDrillLayer layer.old }
    ensures { OnOk result (IsSoundDrillLayer layer.new) }
{
    for drilled in items {
        if !add_item(layer, item_of(alloc, drilled)?)? {
            return Ok(false);
        }
    }
    Ok(true)
}

/// Puts tools and items behind the others, and tells whether each is accepted.
fn fill(
    alloc: Global,
    layer: &mut DrillLayer,
    tools: Kit,
    items: &[Drilled],
) -> Result<bool, AllocError>
    requires { IsSoundDrillLayer layer.old }
    ensures { OnOk result (IsSoundDrillLayer layer.new) }
{
    if !add_tools(layer, tools)? {
        return Ok(false);
    }
    add_items(alloc, layer, items)
}

/// The layer of these tools and items; `None` where one of them is refused.
fn layer_of(alloc: Global, tools: Kit, items: &[Drilled]) -> Result<Option<DrillLayer>, AllocError>
    ensures { IfOk result (λ made. IfSome made IsSoundDrillLayer) }
{
    let mut layer = no_drills(alloc);
    if !fill(alloc, &mut layer, tools, items)? {
        return Ok(None);
    }
    Ok(Some(layer))
}

/// Whether the places are all black, or all white.
fn are(layer: &DrillLayer, places: &[At], black: bool) -> bool
    requires { IsSoundDrillLayer layer.now }
{
    for at in places {
        let Some(spot) = place(*at) else {
            return false;
        };
        if layer.black_at(spot) != black {
            return false;
        }
    }
    true
}

/// Whether the layer shows the row's places.
fn has_places(layer: &DrillLayer, row: &Drilling) -> bool
    requires { IsSoundDrillLayer layer.now }
{
    are(layer, row.black, true) && are(layer, row.white, false)
}

/// Whether the layer and a copy show the row's places.
fn keeps_places(layer: &DrillLayer, row: &Drilling) -> Result<bool, AllocError>
    requires { IsSoundDrillLayer layer.now }
{
    let copy = layer.try_copy()?;
    Ok(has_places(layer, row) && has_places(&copy, row))
}

/// Whether the layer is made, and it and a copy show the row's places.
fn shows(alloc: Global, row: &Drilling) -> Result<bool, AllocError> {
    match layer_of(alloc, row.tools, row.items)? {
        Some(layer) => keeps_places(&layer, row),
        None => Ok(false),
    }
}

/// Whether the row's item has its box, as it stands and as the first one of the layer.
fn has_box(alloc: Global, layer: &DrillLayer, row: &Boxed) -> Result<bool, AllocError>
    requires { IsSoundDrillLayer layer.now }
{
    let item = item_of(alloc, &row.1)?;
    if layer.check_item(&item).is_err() || layer.items.is_empty() {
        return Ok(false);
    }
    let wanted = box_of(row.2);
    Ok(layer.bounds_of(&item) == wanted && layer.item_bounds(0) == wanted)
}

/// Whether the item has the wanted box, as it stands and as the only one of a layer.
fn is_bounded(alloc: Global, row: &Boxed) -> Result<bool, AllocError> {
    match layer_of(alloc, row.0, slice::from_ref(&row.1))? {
        Some(layer) => has_box(alloc, &layer, row),
        None => Ok(false),
    }
}

/// Whether all that is asked is answered as the row has it, by the cells of the items where they are known.
fn answers(layer: &DrillLayer, cells: Option<&ItemCells>, row: &Pointed) -> bool
    requires sound { IsSoundDrillLayer layer.now }
    requires cells { IfSome cells
        (λ kept. AreCellsOf (drill_item_boxes layer.now.tools layer.now.items.items) kept.now) }
{
    for (at, before, wanted) in row.found {
        let Some(spot) = place(*at) else {
            return false;
        };
        if layer.item_at(cells, spot, *before) != *wanted {
            return false;
        }
    }
    for (sides, from, wanted) in row.enclosed {
        if layer.item_in(box_of(*sides), *from) != *wanted {
            return false;
        }
    }
    layer.bounds() == box_of(row.whole)
}

/// Whether all that is asked is answered so, with the cells of the items and without.
fn answers_by_both(alloc: Global, layer: &DrillLayer, row: &Pointed) -> bool
    requires { IsSoundDrillLayer layer.now }
{
    let (cells, _) = ItemCells::of(alloc, &mut layer.boxes());
    answers(layer, None, row) && answers(layer, Some(&cells), row)
}

/// Whether the layer is made, and all that is asked of it is answered so.
fn is_pointed(alloc: Global, row: &Pointed) -> Result<bool, AllocError> {
    match layer_of(alloc, row.tools, row.items)? {
        Some(layer) => Ok(answers_by_both(alloc, &layer, row)),
        None => Ok(false),
    }
}

/// What the check of an item says beside the tools 1 and 2; `None` where they are refused.
fn verdict(alloc: Global, item: &DrillItem) -> Result<Option<Result<(), ItemFault>>, AllocError> {
    match layer_of(alloc, &[(1, 5), (2, 5)], &[])? {
        Some(layer) => Ok(Some(layer.check_item(item))),
        None => Ok(None),
    }
}

/// Whether the item is accepted, or refused so.
fn is_checked(alloc: Global, (drilled, wanted): &Checked) -> Result<bool, AllocError> {
    Ok(verdict(alloc, &item_of(alloc, drilled)?)? == Some(*wanted))
}

/// The same of a long rout.
fn is_rout_checked(alloc: Global, &(times, wanted): &LongRout) -> Result<bool, AllocError> {
    Ok(verdict(alloc, &long_rout(alloc, times)?)? == Some(wanted))
}

/// Whether the tool may be added beside tool 5, or is refused, as the row has it.
fn is_tool_checked(alloc: Global, &(tool, diameter, wanted): &Offered) -> Result<bool, AllocError> {
    match layer_of(alloc, &[(5, 5)], &[])? {
        Some(layer) => Ok(layer.check_tool(tool, Nm(diameter)) == wanted),
        None => Ok(false),
    }
}

#[test]
fn drill_checks(rt: HostRuntime) -> Result<(), Fail> {
    each_in(rt.alloc(), DRILL_ITEMS, is_checked)?;
    each_in(rt.alloc(), LONG_ROUTS, is_rout_checked)?;
    each_in(rt.alloc(), KITS, is_tool_checked)
}

#[test]
fn drillings(rt: HostRuntime) -> Result<(), Fail> {
    each_in(rt.alloc(), DRILL_POINTED, is_pointed)?;
    each_in(rt.alloc(), DRILL_BOXES, is_bounded)?;
    each_in(rt.alloc(), DRILLINGS, shows)
}
