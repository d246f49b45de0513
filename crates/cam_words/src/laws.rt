//! Laws of cutting. Each function does nothing: its contract is a law of what `Words` gives.

ghost use Rattle.cam_words.specs.Laws.{AtMostOneCutting, ReadsItsWords, StopsAtTheLongestFront};

/// A text has at most one cutting into words, extended commands and runs of skipped bytes.
pub fn at_most_one_cutting()
    ensures { AtMostOneCutting }
{}

/// A text that has a cutting gives the words of that cutting, and no fault.
pub fn reads_its_words()
    ensures { ReadsItsWords }
{}

/// A text that has none gives the words of its longest front that has one, and then a fault at that front's end:
/// `BadByte` where the command there holds a byte that it may not hold, else `Unterminated`.
pub fn stops_at_the_longest_front()
    ensures { StopsAtTheLongestFront }
{}
