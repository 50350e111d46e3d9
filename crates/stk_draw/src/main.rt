//! The program `stk_draw`: its call over the files and the standard output of the system.
#![tactic(auto)]

ghost use Rattle.command_words.specs.Handed.{Handed, IsUncalled};
ghost use Rattle.command_words.specs.Texts.{texts};
ghost use Rattle.draw_call.specs.declared.status.DrawStatus.TheVariants.{NoMemory};
ghost use Rattle.draw_call.specs.Answers.{draw_status_number};
ghost use Rattle.stk_draw.specs.Drawn.{IsAnswered};

use command_words::call_words;
use draw_call::{DrawStatus, draw_main};
use outside_io::{Files, HostFiles, HostSink, Sink};
use std::alloc::Global;
use std::env::{self, Args};
use std::io;
use std::process::ExitCode;

// The number of the call's answer to these words.
fn answered<F: Files, S: Sink>(alloc: Global, words: &[String], files: &mut F, out: &mut S) -> u8
    ensures { IsAnswered (texts words.now) (F.seen files.old) (S.seen out.old)
        result (F.seen files.new) (S.seen out.new) }
{
    draw_main(alloc, words, files, out).number()
}

// The status of the process, whose arguments are these: the number of the call's answer to the words after
// the first. A word that is no text makes the words no command, as no words do; if memory was refused for the
// arguments, nothing is called.
fn status<F: Files, S: Sink>(
    alloc: Global,
    args: io::Result<Args>,
    files: &mut F,
    out: &mut S,
) -> u8
    ensures { Handed args (λ words.
        IsAnswered words (F.seen files.old) (S.seen out.old) result (F.seen files.new) (S.seen out.new))
        (IsUncalled (draw_status_number NoMemory) (F.seen files.old) (S.seen out.old)
        result (F.seen files.new) (S.seen out.new)) }
{
    match call_words(alloc, args) {
        Ok(words) => answered(alloc, &words, files, out),
        Err(_) => DrawStatus::NoMemory.number(),
    }
}

fn main(rt: HostRuntime) -> ExitCode {
    let mut files = HostFiles::new(&rt);
    let mut out = HostSink::new(&rt);
    ExitCode::from(status(rt.alloc(), env::args(&rt), &mut files, &mut out))
}
