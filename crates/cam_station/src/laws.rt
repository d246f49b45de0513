//! Laws of lists of commands.

ghost use Rattle.cam_writers.specs.Laws.{TellsItsCommands, TellsItsLines};
ghost use Rattle.cam_station.specs.Attributes.{AttributesShowNowhere};
ghost use Rattle.cam_station.specs.Locality.{CleanTiles, DirtyTiles, DrawnTiles, KeptTiles};
ghost use Rattle.cam_station.specs.Plots.{ExactPlot};
ghost use Rattle.cam_station.specs.Sound.{SoundLaw};
ghost use Rattle.cam_station.specs.Calls.{DepthLaw, RefusalLaw};
ghost use Rattle.cam_station.specs.Undoing.{ExactUndo, ExactUndoEverywhere};
ghost use Rattle.cam_station.specs.Ways.{KeptWays};
ghost use Rattle.cam_station.specs.Writes.{ExactWrite, WrittenIsAccepted, WrittenLoadsAgain};

/// A refused command changes nothing, but that a plot keeps the tiles that it drew.
pub fn refusals_change_nothing()
    ensures { RefusalLaw }
{}

/// A station of some depth never keeps more documents than that, earlier ones and those
/// that were taken back together.
pub fn depth_is_kept()
    ensures { DepthLaw }
{}

/// After any list of commands each layer is sound, and so are those that an undo or a redo
/// brings back.
pub fn documents_stay_sound()
    ensures { SoundLaw }
{}

/// An accepted edit, or a group from its beginning to its end with an accepted edit, then quiet commands and an undo
/// give back the same layers and drill tools, the same texts and, in every window, the same pictures; after quiet
/// commands again a redo gives the edited ones. The state by which a text tells the settings of an object is that of the
/// reader of the text so far.
pub fn undo_is_exact()
    ensures reached { ExactUndo }
    ensures everywhere { ExactUndoEverywhere }
    ensures commands { TellsItsCommands }
    ensures lines { TellsItsLines }
{}

/// After any list of commands each plotted pixel is black exactly where its centre lies in
/// the image of the layer as it then is.
pub fn plot_is_exact()
    ensures { ExactPlot }
{}

/// After any list of commands each accepted write answers the canonical text of the layer as it
/// then is, and that text means the layer.
pub fn write_is_exact()
    ensures { ExactWrite }
{}

/// A text that a write answered is accepted as a file of the layer's kind, where no group is open, and adds the layer
/// again, with the same picture in every window.
pub fn written_texts_load_again()
    ensures again { WrittenLoadsAgain }
    ensures accepted { WrittenIsAccepted }
{}

/// After any list of commands the documents that are kept and the boxes of the ways between them keep step: each way
/// leads from its document to the next one, and touches all that these two paint otherwise.
pub fn ways_lead_between_documents()
    ensures { KeptWays }
{}

/// In any order of edits, groups, aborts, undos, redos and partial redraws each clean tile shows its layer as it is
/// now; an accepted edit, abort, undo or redo makes exactly those tiles dirty that the boxes touch of the steps that it
/// plays; and a redraw and a plot tell how many they drew.
pub fn tiles_are_local()
    ensures kept { KeptTiles }
    ensures clean { CleanTiles }
    ensures dirty { DirtyTiles }
    ensures drawn { DrawnTiles }
{}

/// An edit of file attributes dirties no tile, and leaves every layer's picture in every window as it was.
pub fn attributes_show_nowhere()
    ensures { AttributesShowNowhere }
{}
