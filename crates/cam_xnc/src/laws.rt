//! Laws of reading. Each function does nothing: its contract is a law of what files mean.

ghost use Rattle.cam_xnc.specs.Laws.{GivesFaultlessDrillFiles, GivesSoundDrillLayers, IsNoDrillMemoryFault, SlotsAreRouts};
ghost use Rattle.cam_xnc.specs.Laws.{TellsLeastDrillFault};
ghost use Rattle.cam_xnc.specs.Lines.{OneCutting};

/// A text has exactly one cutting into lines, and it is the one that is read.
pub fn one_cutting_into_lines()
    ensures { OneCutting }
{}

/// The fault that is told is one of the file's, of the least place, and there of the least
/// number.
pub fn the_least_drill_fault_is_told()
    ensures { TellsLeastDrillFault }
{}

/// A file that gives a layer has no fault.
pub fn drill_layers_come_from_faultless_files()
    ensures { GivesFaultlessDrillFiles }
{}

/// No fault of a file has the number that stands for want of memory.
pub fn no_drill_fault_of_memory()
    ensures { IsNoDrillMemoryFault }
{}

/// Every layer that a file gives is sound.
pub fn drill_layers_are_sound()
    ensures { GivesSoundDrillLayers }
{}

/// A slot leaves what the rout leaves that goes to its start, cuts to its end and goes back to
/// drilling.
pub fn slots_are_routs()
    ensures { SlotsAreRouts }
{}
