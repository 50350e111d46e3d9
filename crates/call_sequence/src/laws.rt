//! What stands where a sequence stands, and what sequences do. These functions do nothing; their
//! contracts are the laws.
ghost use Rattle.std.specs.Prelude.{ℕ};
ghost use Rattle.std.specs.Bool.{Decides};
ghost use Rattle.component_file.specs.declared.component.ComponentFields.{ComponentFields};
ghost use Rattle.call_sequence.specs.Standing.{is_site, is_entry, SiteStands, EntryStands};
ghost use Rattle.call_sequence.specs.SequenceRuns.{CallRuns, CallJumps, CallAtBaseFails, CallOutsideFails};
ghost use Rattle.call_sequence.specs.SequenceRuns.{ReturnRuns, ReturnApartFails, ReturnOffBaseFails};
ghost use Rattle.call_sequence.specs.SequenceRuns.{EntryRuns, EntryFails};
ghost use Rattle.call_sequence.specs.SequenceWords.{CallWords, EntryWords, ReturnWords, JointReturnWords};
ghost use Rattle.std.specs.Prelude.{◌≡◌, ◌+◌, ◌<◌, ◌≤◌, true, false, length, slice_get, Some};
ghost use Rattle.component_file.specs.Limits.{IsComponent};
ghost use Rattle.call_sequence.specs.declared.TheConstants.{SITE_WORDS, ENTRY_WORDS};
ghost use Rattle.call_sequence.specs.Kinds.{Row, clean_row};
ghost use Rattle.call_sequence.specs.Places.{begins_entry, begins_site, is_inside};
ghost use Rattle.call_sequence.specs.Walk.{RowAt, site_ready};
ghost use Rattle.call_sequence.specs.Verdict.{IsKept};
ghost use Rattle.call_sequence.specs.Local.{LeadsTo, Judged};

use cap_words::MachineWord;

/// `is_site` and `is_entry` are true exactly if each word is its instruction's number.
pub fn sequences_stand_word_by_word()
    ensures sites { (c : ComponentFields) (index : ℕ) → Decides (is_site c index) (SiteStands c index) }
    ensures entries { (c : ComponentFields) (at : ℕ) → Decides (is_entry c at) (EntryStands c at) }
{}

/// Above the stack's base a call's words save `data`, split the stack, seal the return's halves and reach an
/// `xjmp`; at the base they fail.
///
/// The word in `data` must not be linear. `data` is stored where stk stands, in a cell that is there and
/// isn't of the part's code, and the stack is split below that cell. With stk outside its range the first
/// word fails. Whatever comes of them, but for the code of their part the words touch stk's range alone, if
/// that lies outside the code.
pub fn calls_run<W: MachineWord>()
    ensures above { CallRuns W.look W.plain }
    ensures jumps { CallJumps W.look W.plain }
    ensures at_base { CallAtBaseFails W.look W.plain }
    ensures outside { CallOutsideFails W.look W.plain }
    ensures words { CallWords W.look W.plain }
{}

/// A return's words join stk and `data`, then load and wipe the first cell of `data`; unless the two join
/// from the stack's base on, they fail.
///
/// The word that is loaded must not be linear, and its cell not be of the part's code. But for that code only
/// the word that loads and the one that wipes touch memory; of the last word that is said if stk and `data`
/// are joined.
pub fn returns_run<W: MachineWord>()
    ensures joint { ReturnRuns W.look W.plain }
    ensures apart { ReturnApartFails W.look W.plain }
    ensures off_base { ReturnOffBaseFails W.look W.plain }
    ensures words { ReturnWords W.look W.plain }
    ensures joint_words { JointReturnWords W.look W.plain }
{}

/// An entry's words set stk to its end if it is a linear `rw` capability from the stack's base on, else fail.
///
/// They fail by F4, at the part's `fail`. They touch the code of their part alone.
pub fn entries_run<W: MachineWord>()
    ensures stack { EntryRuns W.look W.plain }
    ensures others { EntryFails W.look W.plain }
    ensures words { EntryWords W.look W.plain }
{}

/// In code that keeps K, words with rows, outside sequences, are instructions that fit them and lead to rows
/// that allow their outcome.
///
/// The row after it is below the row at the next word, and if it may jump elsewhere than to the `fail`, there
/// is a row there that the one before it is below.
pub fn words_flow()
    ensures { (c : ComponentFields) → IsComponent c → IsKept c → (o : ℕ) (r : Row)
        → begins_entry c o ≡ false → begins_site c o ≡ false → RowAt c o r → Judged c o r }
{}

/// In code that keeps K, a site's row is ready for its call, and the row after it allows what its return
/// leaves.
pub fn sites_flow()
    ensures { (c : ComponentFields) → IsComponent c → IsKept c → (o : ℕ) (r : Row)
        → begins_site c o ≡ true → RowAt c o r → (site_ready r ≡ true)
        × LeadsTo c (o + SITE_WORDS) clean_row }
{}

/// In code that keeps K, the row after an entry allows what the entry leaves.
pub fn entries_flow()
    ensures { (c : ComponentFields) → IsComponent c → IsKept c → (o : ℕ)
        → begins_entry c o ≡ true → LeadsTo c (o + ENTRY_WORDS) clean_row }
{}

/// An offset has one row at most and, in code that keeps K, none inside a sequence.
///
/// Inside is past the first word of a site or of an entry.
pub fn rows_are_placed()
    ensures one { (c : ComponentFields) (o : ℕ) (r q : Row) → RowAt c o r → RowAt c o q → r ≡ q }
    ensures outside { (c : ComponentFields) → IsComponent c → IsKept c → (o : ℕ) (r : Row)
        → RowAt c o r → is_inside c o ≡ false }
{}

/// In code that keeps K, each site and each export has the words of its sequence, within the code.
///
/// At a site stand those of a call and its return, at an export those of an entry.
pub fn sequences_stand()
    ensures sites_within { (c : ComponentFields) → IsKept c → (i o : ℕ)
        → slice_get c.sites i ≡ Some o → o + SITE_WORDS ≤ length c.code }
    ensures entries_within { (c : ComponentFields) → IsComponent c → IsKept c → (o : ℕ)
        → begins_entry c o ≡ true → o + ENTRY_WORDS ≤ length c.code }
    ensures sites { (c : ComponentFields) → IsComponent c → IsKept c → (i : ℕ)
        → i < length c.sites → is_site c i ≡ true }
    ensures entries { (c : ComponentFields) → IsComponent c → IsKept c → (o : ℕ)
        → begins_entry c o ≡ true → is_entry c o ≡ true }
{}
