//! Laws of the definitions.

ghost use Rattle.cam_macros.specs.Grammar.{OneTreeLaw};
ghost use Rattle.cam_macros.specs.Parsing.{IsParsedByTheGrammar};
ghost use Rattle.cam_macros.specs.Reading.{OneReadingLaw};

/// A text stands for one expression at most.
pub fn texts_have_one_tree()
    ensures { OneTreeLaw }
{}

/// A text stands for one macro at most.
pub fn texts_have_one_reading()
    ensures { OneReadingLaw }
{}

/// What is computed of a text from left to right is what the grammar says of it.
pub fn texts_are_parsed_by_the_grammar()
    ensures { IsParsedByTheGrammar }
{}
