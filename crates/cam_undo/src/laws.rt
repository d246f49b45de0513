//! Laws of undo. Each function does nothing: its contract is a law of the machine of documents.

ghost use Rattle.cam_undo.specs.Laws.{ExactUndoOfEdits, ExactUndoOfGroups};

use cam_edits::Reversible;

/// An accepted edit and undo give back the document; redo gives the edited state again.
pub fn an_edit_is_undone_exactly<S: Reversible>()
    ensures { ExactUndoOfEdits S.Content }
{}

/// A group with edits and undo give back the document at its beginning; redo gives the group again.
pub fn a_group_is_undone_exactly<S: Reversible>()
    ensures { ExactUndoOfGroups S.Content }
{}
