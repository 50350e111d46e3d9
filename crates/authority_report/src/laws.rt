//! Laws of runs and of reports. The functions do nothing: what is said stands in their clauses.
ghost use Rattle.authority_report.specs.Bounds.{WordsBoundRuns};
ghost use Rattle.authority_report.specs.Entered.{HalvesUnsealed, ReachedSealsAreOwn, ReportsBoundRuns};
ghost use Rattle.authority_report.specs.Influence.{WordsBoundInfluence, ReportsBoundInfluence};
ghost use Rattle.authority_report.specs.Influence.{UnreadIsInNoSpan, ReportsAreBlind};
ghost use Rattle.authority_report.specs.One.{ReportsAreOne, TextsAreOne};

/// Up to its first jump under another's seal, a run does no more than the words of its first state allow.
///
/// Let the words of all registers, and of all cells that may be read, give no more than an authority. Then
/// each step fetches, loads, stores, empties and seals only as the authority allows, up to and with the first
/// that jumps under a seal that isn't an own one; and each cell that may not be written stays.
pub fn words_bound_runs()
    ensures { WordsBoundRuns }
{}

/// Up to its first jump under another's seal, a run from a part's entry does only what the part's report
/// says.
///
/// Let a program begin at one of the part's entries, with its data. Then, up to and with the first jump under
/// a seal that isn't the part's, each cell that a step fetches can be run, each that it loads can be read,
/// each that it stores to or empties can be written, and what it seals with is a seal of the report. Each
/// cell that can't be written is as at the start.
pub fn reports_bound_runs()
    ensures bound { ReportsBoundRuns }
    ensures halves { HalvesUnsealed }
{}

/// Up to the first jump under another's seal, cells that a part's report says can't be read don't influence
/// its run: noninterference.
///
/// Let a program begin at one of the part's entries, once as linking leaves it, and once with other words in
/// cells that the part's report says can't be read, or with such cells added or gone. Then, up to and with
/// the first jump under a seal that isn't the part's, which comes at the same step, both take the same steps:
/// they halt alike, fail alike with one cause at one pc, or come to states with the same registers and the
/// same cells but for those, which are in each as they were. The report of the part is the same of both, and
/// the cells that it says can't be read are those in none of its spans.
///
/// So it is from any state whose words give no more than an authority, of the cells that it may not read.
pub fn reports_bound_influence()
    ensures words { WordsBoundInfluence }
    ensures influence { ReportsBoundInfluence }
    ensures spans { UnreadIsInNoSpan }
    ensures same { ReportsAreBlind }
{}

/// Each seal in a part's report is a return seal of its own.
///
/// So is each by which the part of a linked start can seal.
pub fn seals_are_own()
    ensures { ReachedSealsAreOwn }
{}

/// A part has one report at most, and a start one text of reports.
pub fn reports_are_one()
    ensures report { ReportsAreOne }
    ensures text { TextsAreOne }
{}
