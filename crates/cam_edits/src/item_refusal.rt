//! Refusals of edits whose items have faults, or no place.

ghost use Rattle.std.specs.Prelude.{◌≡◌};
ghost use Rattle.cam_edits.specs.Machinery.Judging.{item_answer, place_answer};

use crate::fault::EditFault;
use cam_objects::ItemFault;

/// The first refusal of an edit that makes an item, by how this was checked, and whether there are a place and room for
/// it.
pub(crate) fn judge_item(
    checked: Result<(), ItemFault>,
    has_place: bool,
    has_room: bool,
) -> Result<(), EditFault>
    ensures { result ≡ item_answer checked has_place has_room }
{
    match checked {
        Err(ItemFault::Malformed) => Err(EditFault::WrongKind),
        _ if !has_place => Err(EditFault::NoItem),
        Err(ItemFault::UnknownAperture) => Err(EditFault::NoAperture),
        Err(ItemFault::UnknownTool) => Err(EditFault::NoTool),
        Err(ItemFault::WrongAperture) => Err(EditFault::WrongAperture),
        Err(ItemFault::ZeroRadius) => Err(EditFault::SizeRefused),
        Err(ItemFault::OutOfBoard) => Err(EditFault::OutOfBoard),
        Err(ItemFault::TooMuch) => Err(EditFault::TooMuch),
        Ok(()) if !has_room => Err(EditFault::TooMuch),
        Ok(()) => Ok(()),
    }
}

/// The refusal of an edit at a place, counted from 0, of a list of so many items: there has to be one.
pub(crate) fn judge_place(count: usize, k: usize) -> Result<(), EditFault>
    ensures { result ≡ place_answer count k }
{
    if k >= count {
        return Err(EditFault::NoItem);
    }
    Ok(())
}
