//! Laws of what words say. Each function does nothing: its contract is a law of the definitions.

ghost use Rattle.cam_commands.specs.Laws.{WordsSayTheirParts, OperationsAreWritten, NamesDecide};

/// A word that is written from the parts of an operation, each letter before its run, says that operation; behind
/// the G code of a mode it says it in this mode, and the G code alone sets the mode.
pub fn words_say_their_parts()
    ensures { WordsSayTheirParts }
{}

/// A word that says an operation is written from parts that say it, behind the G code of its mode or without one: no
/// other text says an operation.
pub fn operations_are_written()
    ensures { OperationsAreWritten }
{}

/// The two letters of an extended command decide what it says of its data; behind letters that name no command it is
/// unknown, and with a `*` in its data too, unless it is a macro.
pub fn names_decide()
    ensures { NamesDecide }
{}
