//! Laws of canonical texts. Each function does nothing: its contract is a law.

ghost use Rattle.cam_writers.specs.Laws.{DrillReadsBack, DrillWritesAgain, GerberReadsBack, GerberWritesAgain};
ghost use Rattle.cam_writers.specs.Laws.{TellsItsCommands, TellsItsLines};

/// The tool and the mode that the settings of an item are told by are those in which the reader of
/// the text so far is.
pub fn drill_texts_tell_their_lines()
    ensures { TellsItsLines }
{}

/// The canonical text of a sound drill layer is read as the same tools and items.
pub fn drill_texts_read_back()
    ensures { DrillReadsBack }
{}

/// What was read from a canonical text is written as the same text.
pub fn drill_texts_write_again()
    ensures { DrillWritesAgain }
{}

/// The state that the settings of an object are told by is that in which the reader of the text so far is.
pub fn gerber_texts_tell_their_commands()
    ensures { TellsItsCommands }
{}

/// The canonical text of a sound layer is read as the same dictionary and items.
pub fn gerber_texts_read_back()
    ensures { GerberReadsBack }
{}

/// What was read from a canonical text is written as the same text.
pub fn gerber_texts_write_again()
    ensures { GerberWritesAgain }
{}
