//! What faults say.

use crate::tables::each_in;
use cam_edits::EditFault;
use cam_tiles::RasterFault;
use cam_undo::HistoryFault;
use std::alloc::{AllocError, Global};
use std::fmt::Display;
use std::test::Fail;

const EDITS: &[(EditFault, &str)] = &[
    (EditFault::NoLayer, "there is no layer of this name"),
    (EditFault::WrongKind, "the edit does not go with the layer"),
    (
        EditFault::AttributeRefused,
        "the key or the fields of the attribute are outside their grammar",
    ),
    (
        EditFault::NoAttribute,
        "the layer has no attribute of this name",
    ),
    (EditFault::NoItem, "the layer has no item at this place"),
    (EditFault::HasNone, "the item has none"),
    (
        EditFault::NoAperture,
        "the layer has no aperture of this number",
    ),
    (EditFault::NoTool, "the layer has no tool of this number"),
    (
        EditFault::WrongAperture,
        "a draw needs a solid circle or a solid rectangle, an arc a solid circle",
    ),
    (EditFault::SizeRefused, "the size is outside its limits"),
    (
        EditFault::OutOfBoard,
        "a control point would leave the board",
    ),
    (EditFault::TooMuch, "the layer would pass its limits"),
    (EditFault::Memory, "no memory"),
];

const HISTORIES: &[(HistoryFault, &str)] = &[
    (HistoryFault::Depth, "the depth must be from 1 to 1,000"),
    (HistoryFault::GroupOpen, "a group is open"),
    (HistoryFault::NoGroup, "no group is open"),
    (HistoryFault::NothingToUndo, "there is nothing to undo"),
    (HistoryFault::NothingToRedo, "there is nothing to redo"),
    (HistoryFault::Memory, "no memory"),
];

const RASTERS: &[(RasterFault, &str)] = &[
    (
        RasterFault::WindowRefused,
        "the window is outside its limits",
    ),
    (RasterFault::StillDirty, "some tiles are still to be drawn"),
    (RasterFault::Memory, "no memory"),
];

/// Whether the row's fault says the row's text.
fn says<F: Display>(alloc: Global, row: &(F, &'static str)) -> Result<bool, AllocError> {
    Ok(format!(in alloc; "{}", row.0)?.as_str() == row.1)
}

#[test]
fn edits(rt: HostRuntime) -> Result<(), Fail> {
    each_in(rt.alloc(), EDITS, says)
}

#[test]
fn histories(rt: HostRuntime) -> Result<(), Fail> {
    each_in(rt.alloc(), HISTORIES, says)
}

#[test]
fn rasters(rt: HostRuntime) -> Result<(), Fail> {
    each_in(rt.alloc(), RASTERS, says)
}
