//! What holds of the definitions. These functions do nothing; their contracts are the laws.
ghost use Rattle.linked_starts.specs.Parts.{PartSeen, Accepts};
ghost use Rattle.linked_starts.specs.Accepted.{accepted};
ghost use Rattle.linked_starts.specs.DataWords.{DataStands};
ghost use Rattle.linked_starts.specs.StartFits.{StartsFit};

/// A part is accepted unless it breaks a rule, and then the first that it breaks is told.
///
/// Rules C come before K, and each is told at its first place.
pub fn first_rule_is_told()
    ensures { (p : PartSeen) → Accepts p (accepted p) }
{}

/// At the start of accepted parts that keep L, each import's slot holds what the import names.
///
/// The slot has the code half, and the word after it the data half. Every other word of a part's data is the
/// part's own.
pub fn data_words_stand()
    ensures { DataStands }
{}

/// All words of the start of accepted parts that keep L have spellings.
///
/// They are those in registers and in cells.
pub fn start_words_fit()
    ensures { StartsFit }
{}
