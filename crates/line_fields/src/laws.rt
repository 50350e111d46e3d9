//! What holds of what is read. These functions do nothing; their contracts are the laws.
ghost use Rattle.line_fields.specs.Laws.{NumbersAreRead, IntegersAreRead, WordsAreRead, BacksAreRead};
ghost use Rattle.line_fields.specs.Laws.{HandedAreRead};
ghost use Rattle.line_fields.specs.Bad.{FirstBadIsTold, OthersAreFed};

/// A text is read as a number, or an integer, exactly if it is its decimal text.
///
/// A number is read up to a bound of 64 bits; an integer has 64 bits.
pub fn numbers_are_read()
    ensures naturals { NumbersAreRead }
    ensures integers { IntegersAreRead }
{}

/// A text is read as a word exactly if it is that word's text.
pub fn words_are_read()
    ensures { WordsAreRead }
{}

/// What a return would do, and what a pair is, are each read of their text alone.
pub fn jumps_are_read()
    ensures backs { BacksAreRead }
    ensures pairs { HandedAreRead }
{}

/// A text is a feed unless a line breaks its form; the first such line is told.
pub fn first_bad_lines_are_told()
    ensures told { FirstBadIsTold }
    ensures others { OthersAreFed }
{}
