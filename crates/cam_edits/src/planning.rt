//! Plans of edits.

ghost use Rattle.std.specs.Prelude.{IfErr, IfOk};
ghost use Rattle.cam_edits.specs.Editing.{edited};
ghost use Rattle.cam_edits.specs.Planning.{IsPlan, IsRefused};
ghost use Rattle.cam_edits.specs.Sheets.{AreSound, sheets_of};

use crate::board::{Board, SheetContent};
use crate::board_step::BoardStep;
use crate::drill_judging::judged_drill;
use crate::edit::Edit;
use crate::fault::EditFault;
use crate::judging::judged;
use crate::touched::{drill_touched, touched};
use std::alloc::Global;

/// The step that makes an edit, which fits the board, with the boxes of what the edit touches. The board's layers have
/// to be sound.
///
/// The refusals, in the order in which they are told: no layer of the name (60); an edit or an item that does not go
/// with the layer's kind, or a malformed item (68); a key or fields of an attribute outside their grammar (75), or no
/// attribute of the name that is to be dropped (74); no item at the place (61); an item without what is to change (64);
/// an aperture (62) or a tool (66) that the layer does not have; a draw without a solid circle or rectangle, or an arc
/// without a solid circle (63); an arc of radius 0, or a tool's diameter outside its limits (67); a control point off
/// the board (65); more than the limits allow (69). Last comes want of memory (30).
pub fn plan(alloc: Global, board: &Board, edit: Edit) -> Result<BoardStep, EditFault>
    requires { AreSound (sheets_of board.now) }
    ensures planned { IfOk result (λ step. IsPlan (sheets_of board.now) edit step) }
    ensures refused { IfErr result (λ fault. IsRefused (edited edit (sheets_of board.now)) fault) }
{
    let Edit { name, change } = edit;
    let Some(sheet) = board.place(&name) else {
        return Err(EditFault::NoLayer);
    };
    match board.content(sheet) {
        SheetContent::Gerber(kept) => {
            let layer = kept.layer();
            let step = judged(layer, kept.leaves(), change)?;
            let boxes = touched(alloc, layer, &step)?;
            Ok(BoardStep::Gerber { sheet, step, boxes })
        }
        SheetContent::Drill(kept) => {
            let layer = kept.layer();
            let step = judged_drill(layer, kept.leaves(), change)?;
            let boxes = drill_touched(alloc, layer, kept.tools(), &step)?;
            Ok(BoardStep::Drill { sheet, step, boxes })
        }
    }
}
