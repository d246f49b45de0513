//! Laws of reading. Each function does nothing: its contract is a law of what files mean.

ghost use Rattle.cam_gerber.specs.State.{Past};
ghost use Rattle.cam_gerber.specs.Attributes.{SetsItsAttribute};
ghost use Rattle.cam_gerber.specs.Computing.{MeansItsReading};
ghost use Rattle.cam_gerber.specs.Laws.{
  GivesFaultlessFiles,
  GivesSoundLayers,
  GoesOnBehindItsFront,
  IsNoMemoryFault,
  KeepsHomesApart,
  MeansOneThing,
  SameSettingsChangeNothing,
  TellsLeastGerberFault,
};

/// A file means one thing at most: one layer, or one fault.
pub fn files_mean_one_thing()
    ensures { MeansOneThing }
{}

/// What a file means can be computed.
pub fn files_mean_what_is_computed()
    ensures { MeansItsReading }
{}

/// A front without end and without fault leads where the rest of the file leads behind it.
pub fn files_go_on_behind_their_front()
    ensures { GoesOnBehindItsFront }
{}

/// Each open block has a number of its own that no entry has, and no repeat is open with a block.
pub fn homes_stay_apart()
    ensures { KeepsHomesApart }
{}

/// No fault of a file has the number that stands for want of memory.
pub fn no_fault_of_memory()
    ensures { IsNoMemoryFault }
{}

/// The fault that is told is one of the file's, of the least place, and there of the least number.
pub fn the_least_gerber_fault_is_told()
    ensures { TellsLeastGerberFault }
{}

/// A file that gives a layer has no fault.
pub fn layers_come_from_faultless_files()
    ensures { GivesFaultlessFiles }
{}

/// Every layer that a file gives is sound.
pub fn layers_are_sound()
    ensures { GivesSoundLayers }
{}

/// A file attribute is set among those of the commands before it: a name that is there keeps its place and takes the
/// fields, another goes last.
pub fn attributes_follow_the_rule()
    ensures { SetsItsAttribute }
{}

/// A setting of the value that is in force changes nothing.
pub fn same_settings_change_nothing()
    ensures { (past : Past) → SameSettingsChangeNothing past }
{}
