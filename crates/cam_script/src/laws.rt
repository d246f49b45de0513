//! Laws of lines. Each function does nothing: its contract is a law of what lines mean.

ghost use Rattle.cam_script.specs.Spelling.{SoundItemsCanBeSaid, WordsReadBack};

/// In a line within its limit that begins with `insert NAME K`, the words of an item are read as the insertion of exactly
/// this item.
pub fn words_read_back()
    ensures { WordsReadBack }
{}

/// The numbers and the points of the items of sound layers are those that lines can say.
pub fn sound_items_can_be_said()
    ensures { SoundItemsCanBeSaid }
{}
