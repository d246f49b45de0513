//! Laws of edits. Each function does nothing: its contract is a law of what edits mean.

ghost use Rattle.cam_edits.specs.AttributeLaws.{AttributeLaw};
ghost use Rattle.cam_edits.specs.BoxLaws.{EditBoxLaw};
ghost use Rattle.cam_edits.specs.Planning.{EditsStaySound};

/// What an edit makes of sound layers is sound.
pub fn edits_stay_sound()
    ensures { EditsStaySound }
{}

/// A place outside the boxes that an accepted edit touches has the same colour before and after it, and layers other
/// than the edited one stay as they are.
pub fn edits_stay_in_their_boxes()
    ensures { EditBoxLaw }
{}

/// An accepted edit of file attributes changes no picture and touches no box. A name that is set keeps its place or
/// goes last, and those behind one that is dropped close up.
pub fn attributes_change_no_picture()
    ensures { AttributeLaw }
{}
