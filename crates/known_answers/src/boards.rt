//! Boards of two layers: before a group is played, room is made on the sheets that it changes.

use cam_edits::{Board, BoardStep, IndexedLayer, Name, Reversible, Sheet, SheetContent, Step};
use cam_gerber::read_gerber;
use cam_objects::Attribute;
use cam_units::Items;
use std::alloc::Global;
use std::slice::from_ref;
use std::test::Fail;

/// Adds a layer without items and attributes.
fn add(alloc: Global, board: &mut Board, name: &str) -> Result<(), Fail> {
    let layer = read_gerber(alloc, b"%FSLAX46Y46*%%MOMM*%M02*")?;
    let content = SheetContent::Gerber(IndexedLayer::new(alloc, layer));
    let name = Name::from_string(String::from_str(alloc, name)?);
    board.add(Sheet { name, content })?;
    Ok(())
}

/// A step that puts an attribute on a sheet.
fn put(alloc: Global, sheet: usize) -> Result<BoardStep, Fail> {
    let attribute = Attribute {
        name: Items::from_vec(Vec::from_slice(alloc, b".Part")?),
        fields: Items::from_vec(Vec::new(alloc)),
    };
    Ok(BoardStep::Gerber {
        sheet,
        step: Step::PutAttribute { k: 0, attribute },
        boxes: Vec::new(alloc),
    })
}

/// Whether the layer of a sheet has room for an attribute.
fn has_room(board: &Board, sheet: usize) -> bool {
    match board.sheet(sheet) {
        Some(
            Sheet {
                content: SheetContent::Gerber(layer),
                ..
            },
        ) => layer.layer().attributes.capacity() > 0,
        _ => false,
    }
}

/// Whether room is made on a sheet that has none.
fn makes_room(alloc: Global, board: &mut Board, sheet: usize) -> Result<bool, Fail> {
    let step = put(alloc, sheet)?;
    let had = has_room(board, sheet);
    BoardStep::room(from_ref(&step), board)?;
    Ok(!had && has_room(board, sheet))
}

#[test]
fn room_on_each_sheet(rt: HostRuntime) -> Result<(), Fail> {
    let mut board = Board::new(rt.alloc());
    add(rt.alloc(), &mut board, "first")?;
    add(rt.alloc(), &mut board, "second")?;
    for sheet in 0..2 {
        assert!(rt; makes_room(rt.alloc(), &mut board, sheet)?);
    }
    Ok(())
}
