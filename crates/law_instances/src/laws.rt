//! That laws of runs speak of something. These functions do nothing; their contracts are the laws.
ghost use Rattle.law_instances.specs.Blind.{BlindThere};
ghost use Rattle.law_instances.specs.Secret.{SecretLineThere};
ghost use Rattle.law_instances.specs.Callback.{CallbackTold};

use authority_report::laws::reports_bound_influence;
use callback_instance::laws::passers_are_called_back;
use headline::laws::{frames_are_secret, start_lines_agree, the_headline};
use source_starts::laws::sources_show_nothing_else;

/// There is an untrusted part whose run is the same whatever a trusted part's data holds.
///
/// The part is entered at its export. It loads its count, adds one and stores it, and with its eighth
/// instruction it jumps to the trusted part's main, by the pair that it imports. Its report has no span over
/// the two words of the trusted part's data. So by the law, with any other words there or none, the eight
/// instructions lead to the same registers and the same other cells.
pub fn a_teller_is_blind()
    ensures { BlindThere }
{
    reports_bound_influence();
}

/// There is a run that writes a line while a call is open, and the same one whatever the call's frame holds.
///
/// A trusted part calls the part that counts, which enters main again with its new count, 6. That is the
/// eighth instruction after the call's `xjmp`, and it writes an enter line, with 6 in a0. The call's frame is
/// one word, the caller's data capability. By the law the eight instructions write the same line with any
/// other word there, or with none.
pub fn a_line_shows_no_frame()
    ensures { SecretLineThere }
{
    the_headline();
    start_lines_agree();
    frames_are_secret();
}

/// There is a run whose sources call code outside by a pair that it passed, as their refined meaning tells.
///
/// It is the run of `callback_instance::laws::passers_are_called_back`: code outside enters a procedure with
/// 3 and a pair of its own, and is called by that pair with 6. By `sources_show_nothing_else` the refined
/// meaning's event is this call, and tells the pair's two words, as code outside passed them, and 6.
pub fn a_callback_is_told()
    ensures { CallbackTold }
{
    sources_show_nothing_else();
    passers_are_called_back();
}
