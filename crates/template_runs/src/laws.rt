//! What holds of the runs of trusted parts beside code that isn't trusted. These functions do nothing;
//! their contracts are the laws.
ghost use Rattle.template_runs.specs.Sharing.{SharedAloneIsEntered};

/// Code outside that was shown no private code enters trusted parts only by shared procedures or the newest
/// call's return.
///
/// Let parts be linked, let untrusted code run with registers that hold words that it may be shown, and let
/// what is private be kept: in memory that it may read, and in the frames of open calls, there is no code
/// half of a procedure that isn't shared. Then each of its steps that goes on stays outside, where the same
/// holds again and the data of trusted parts are as before; or enters a trusted part where an export that is
/// shared begins, with registers that hold words that it may be shown; or returns to the newest open call,
/// after its site, and what is private is kept.
pub fn shared_alone_is_entered()
    ensures { SharedAloneIsEntered }
{}
