//! What code outside can't tell apart. These functions do nothing; their contracts are the laws.
ghost use Rattle.context_laws.specs.Meanings.{SameMeaningsAreNotToldApart, SameMeaningsGoInStep};
ghost use Rattle.context_laws.specs.Ends.{SameMeaningsEndAlike};
ghost use Rattle.context_laws.specs.Sources.{FirstArrivalsAlike, PlacedStartsAlike, SourcesAgainstContexts};
ghost use Rattle.context_laws.specs.Sources.{SourcesInStep, StartsAlike, WholeRunsInStep};

use headline::laws::the_headline;
use overlay_machine::laws::{linked_starts_agree, starts_begin};
use run_lines::laws::cuts_are_greatest;
use source_starts::laws::{
    sources_leave_nothing, sources_mean, sources_tell_words, wiped_cells_are_told,
};

/// From alike states, as long as linked sources show it the same, code outside takes the same steps beside
/// both.
///
/// It comes in alike and ends alike. So it is whatever the sources are and whatever untrusted parts are
/// beside them.
pub fn sources_go_in_step()
    ensures { SourcesInStep }
{
    starts_begin();
    linked_starts_agree();
    sources_leave_nothing();
}

/// From alike states, code outside can't tell sources apart that show the same on each feed.
pub fn no_context_tells_sources<I, O>()
    ensures { SourcesAgainstContexts I O }
{
    starts_begin();
    linked_starts_agree();
    sources_leave_nothing();
}

/// Starts with one main are alike to code outside if their cells are.
pub fn starts_are_alike()
    ensures { StartsAlike }
{}

/// Starts of links beside each other with one main are alike, if untrusted parts import alike.
///
/// They import the same exports, or twins.
pub fn placed_starts_are_alike()
    ensures { PlacedStartsAlike }
{
    starts_begin();
}

/// If linked sources first let go with the same shown, code outside arrives in alike states.
///
/// The links are beside each other, and main is trusted. Untrusted parts import the same exports, or twins,
/// in both.
pub fn first_arrivals_are_alike()
    ensures { FirstArrivalsAlike }
{
    starts_begin();
    linked_starts_agree();
    sources_leave_nothing();
}

/// With an untrusted main, code outside takes the same steps from both starts on, as long as sources show it
/// the same.
///
/// The links are beside each other. Untrusted parts import the same exports, or twins, in both.
pub fn whole_runs_go_in_step()
    ensures { WholeRunsInStep }
{
    starts_begin();
    linked_starts_agree();
    sources_leave_nothing();
}

/// Sources that mean the same can't be told apart by any untrusted parts linked beside both at the same
/// addresses.
///
/// Take two lists of modules, linked with the same untrusted parts at the same addresses, and one-to-one
/// names for the calls of both. Let the refined meanings of both tell the same on each feed: of each call its
/// name, where its frame begins, the lowest wiped cell, and by names the pair by which it goes and what each
/// argument register holds; of each procedure that leaves its part, its value, the lowest wiped cell, and the
/// item that entered it. Then whatever code outside does beside the one, it does beside the other, and the
/// other way round: it makes as many steps, comes in and is let go as often, the same items come in, and it
/// ends alike. Where main is theirs, that is said from where they let go for the first time; where the one
/// does, so does the other, with the same shown.
pub fn same_meanings_are_not_told_apart()
    ensures { SameMeaningsAreNotToldApart }
{
    starts_begin();
    linked_starts_agree();
    sources_leave_nothing();
    sources_tell_words();
    wiped_cells_are_told();
    sources_mean();
}

/// If linked sources tell as much as others, code outside does beside them whatever it does beside those.
///
/// Both are linked beside the same untrusted parts at the same addresses. So it is for any choice of which
/// exports and sites stand for each other, as long as those do that have one name, and also if no part is
/// untrusted.
pub fn same_meanings_go_in_step()
    ensures { SameMeaningsGoInStep }
{
    starts_begin();
    linked_starts_agree();
    sources_leave_nothing();
    sources_tell_words();
    wiped_cells_are_told();
    sources_mean();
}

/// If sources mean the same and end the same way, plain runs beside the same untrusted parts at the same
/// addresses end alike: contextual equivalence.
///
/// Take two lists of modules, linked with the same untrusted parts at the same addresses, whichever part has
/// main, and let the refined meanings of both tell the same on each feed whose integers have 64 bits, as
/// above, and end the same way on it: by `halt` with one value, by a failure, with nothing left in the feed,
/// or not at all. Then the plain run of the one link halts if and only if that of the other does, both with
/// the same word in a0, or with a sealed one in both; it fails if and only if the other fails; and it runs
/// forever if and only if the other does.
pub fn same_meanings_end_alike()
    ensures { SameMeaningsEndAlike }
{
    starts_begin();
    linked_starts_agree();
    sources_leave_nothing();
    sources_tell_words();
    wiped_cells_are_told();
    sources_mean();
    the_headline();
    cuts_are_greatest();
}
