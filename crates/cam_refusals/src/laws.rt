//! Laws of checks. Each function does nothing: its contract is a law of what is told of a list of checks, or of a file.

ghost use Rattle.cam_refusals.specs.Checks.{TellsFirst, TellsLeast};
ghost use Rattle.cam_refusals.specs.FileFaults.{TellsLeastFault};
ghost use Rattle.cam_refusals.specs.Refusals.{number_of};
ghost use Rattle.cam_refusals.specs.declared.refusal.Refusal.{Refusal};

/// What is told first holds, and nothing before it does; where nothing is told, nothing holds.
pub fn the_first_is_told()
    ensures { TellsFirst Refusal }
{}

/// What is told as the least holds, and no fault of a lesser number does; where nothing is told, nothing holds.
pub fn the_least_is_told()
    ensures { TellsLeast Refusal number_of }
{}

/// What is told of a file is a fault of least place, and there of least number; where nothing is told, it has none.
pub fn the_least_fault_is_told()
    ensures { TellsLeastFault }
{}
