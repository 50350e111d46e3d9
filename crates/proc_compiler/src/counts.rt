//! How many words and calls there are. The largest number of 32 bits stands for all above.
ghost use Rattle.std.specs.Prelude.{◌≡◌, ◌≤◌, ◌+◌, ◌-◌, ◌*◌, ◌==◌, nat_le};
ghost use Rattle.call_sequence.specs.declared.TheConstants.{SITE_WORDS};
ghost use Rattle.component_file.specs.declared.TheConstants.{MOST_WORDS};
ghost use Rattle.proc_names.specs.Need.{in_32_bits};
ghost use Rattle.proc_program.specs.View.{args_of};
ghost use Rattle.proc_program.specs.StepView.{block_of};
ghost use Rattle.proc_program.specs.Calls.{calls, args_calls, step_calls, block_calls, procedure_calls};
ghost use Rattle.proc_program.specs.Calls.{part_calls};
ghost use Rattle.proc_program.specs.Limits.{IsProgram, arg_registers};
ghost use Rattle.proc_templates.specs.Templates.{exp_words, args_words, step_words, block_words, pair_words};
ghost use Rattle.proc_templates.specs.Templates.{checks_words, check_words, op_words};
ghost use Rattle.proc_templates.specs.Compiled.{pair_count, size_of_proc, code_words, data_count};

use call_sequence::{ENTRY_WORDS, SITE_WORDS};
use component_file::MOST_WORDS;
use proc_language::Op;
use proc_program::{ArgExp, Exp, ExpKind, Handle, Procedure, Program, Statement, StatementKind};

/// The words of an instruction at a slot, or at a variable of the data.
pub(crate) const ACCESS_WORDS: u32 = 3;
/// The words of an instruction at an element of an array.
pub(crate) const ELEMENT_WORDS: u32 = 14;
/// The words of a jump.
pub(crate) const JUMP_WORDS: u32 = 3;
/// The words that check a callback.
pub(crate) const CALLBACK_WORDS: u32 = 13;
/// The words of an epilogue, but for two for each word of the frame.
pub(crate) const EPILOGUE_WORDS: u32 = 13;

// So many words, and so many calls among them.
#[derive(Clone, Copy)]
struct Count {
    words: u32,
    calls: u32,
}

impl Count {
    // These words, and no call.
    fn of(words: u32) -> Count
        ensures { result ≡ record { words = words; calls = 0 } }
    {
        Count { words, calls: 0 }
    }

    // As many words more.
    fn with(self, words: u32) -> Count
        ensures { result ≡ record { words = in_32_bits (self.words + words); calls = self.calls } }
    {
        Count {
            words: self.words.saturating_add(words),
            calls: self.calls,
        }
    }

    fn and(self, other: Count) -> Count
        ensures { result ≡ record {
          words = in_32_bits (self.words + other.words);
          calls = in_32_bits (self.calls + other.calls);
        } }
    {
        Count {
            words: self.words.saturating_add(other.words),
            calls: self.calls.saturating_add(other.calls),
        }
    }
}

fn pair_words(handle: Handle) -> u32
    ensures is { result ≡ pair_words handle }
    ensures few { result ≤ 6 }
{
    match handle {
        Handle::Given(_) => 6,
        Handle::Own(_) | Handle::Imported(_) => 5,
    }
}

fn op_words(op: Op) -> u32
    ensures is { result ≡ op_words op }
{
    match op {
        Op::Plus | Op::Minus | Op::Less => 8,
        Op::Equal => 12,
    }
}

// The registers of arguments that are left.
fn unused(args: &[ArgExp], left: u32) -> u32
    ensures { result ≡ left - arg_registers (args_of args.now) }
{
    match args.split_first() {
        None => left,
        Some((ArgExp::Value(_), rest)) => unused(rest, left.saturating_sub(1)),
        Some((ArgExp::Pass(_), rest)) => unused(rest, left.saturating_sub(2)),
    }
}

// A call, but for the values of its arguments.
fn call_count(handle: Handle, args: &[ArgExp]) -> Count
    ensures words { result.words
        ≡ 4 - arg_registers (args_of args.now) + pair_words handle + (SITE_WORDS + 4) }
    ensures calls { result.calls ≡ 1 }
{
    Count {
        words: unused(args, 4) + pair_words(handle) + SITE_WORDS + 4,
        calls: 1,
    }
}

#[cycle(expr_count)]
fn expr_count(e: &Exp) -> Count
    ensures words { result.words ≡ in_32_bits (exp_words e.now) }
    ensures calls { result.calls ≡ in_32_bits (calls e.now) }
{
    match &e.kind {
        ExpKind::Number(_) => Count::of(1),
        ExpKind::Load(_) => Count::of(ACCESS_WORDS),
        ExpKind::Element(_, index) => expr_count(index).with(ELEMENT_WORDS + 1),
        ExpKind::Call(c) => {
            let args = c.args.as_slice();
            args_count(args).and(call_count(c.handle, args))
        }
        ExpKind::Binary(op, left, right) => {
            expr_count(left).and(expr_count(right)).with(op_words(*op))
        }
    }
}

#[cycle(expr_count)]
fn args_count(args: &[ArgExp]) -> Count
    ensures words { result.words ≡ in_32_bits (args_words (args_of args.now)) }
    ensures calls { result.calls ≡ in_32_bits (args_calls (args_of args.now)) }
{
    match args.split_first() {
        None => Count::of(0),
        Some((ArgExp::Value(e), rest)) => expr_count(e).with(6).and(args_count(rest)),
        Some((ArgExp::Pass(handle), rest)) => args_count(rest).with(pair_words(*handle)),
    }
}

#[cycle(step_count)]
fn step_count(s: &Statement) -> Count
    ensures words { result.words ≡ in_32_bits (step_words s.now) }
    ensures calls { result.calls ≡ in_32_bits (step_calls s.now) }
{
    match &s.kind {
        StatementKind::Set(_, e) => expr_count(e).with(ACCESS_WORDS),
        StatementKind::SetAt(_, index, e) => expr_count(index)
            .and(expr_count(e))
            .with(2 * ACCESS_WORDS + 1 + ELEMENT_WORDS),
        StatementKind::Do(e) => expr_count(e),
        StatementKind::If(c, body, other) => {
            let blocks = block_count(body.as_slice()).and(block_count(other.as_slice()));
            expr_count(c).and(blocks).with(3 * JUMP_WORDS)
        }
        StatementKind::While(c, body) => expr_count(c)
            .and(block_count(body.as_slice()))
            .with(3 * JUMP_WORDS),
        StatementKind::Return(e) => expr_count(e).with(1 + JUMP_WORDS),
        StatementKind::Halt(e) => expr_count(e).with(2),
    }
}

#[cycle(step_count)]
fn block_count(steps: &[Statement]) -> Count
    ensures words { result.words ≡ in_32_bits (block_words (block_of steps.now)) }
    ensures calls { result.calls ≡ in_32_bits (block_calls (block_of steps.now)) }
{
    let mut count = Count::of(0);
    for s in steps {
        count = count.and(step_count(s));
    }
    count
}

fn checks_words(callbacks: &[bool]) -> u32
    ensures { result ≡ in_32_bits (checks_words callbacks.now) }
{
    match callbacks.split_first() {
        None => 0,
        Some((callback, rest)) => {
            let words = if *callback { CALLBACK_WORDS } else { 1 };
            checks_words(rest).saturating_add(words)
        }
    }
}

fn proc_count(p: &Procedure) -> Count
    ensures words { result.words ≡ in_32_bits (size_of_proc p.now) }
    ensures calls { result.calls ≡ in_32_bits (procedure_calls p.now) }
{
    let frame = p.need.saturating_mul(4);
    let checks = checks_words(p.callbacks.as_slice());
    block_count(p.body.as_slice())
        .with(ENTRY_WORDS + 1 + EPILOGUE_WORDS)
        .with(checks)
        .with(frame)
}

// The words of a module's code, and its calls.
#[tactic(auto, unfolding(proc_templates::specs::Compiled::code_words))]
fn code_count(m: &Program) -> Count
    ensures words { result.words ≡ in_32_bits (code_words m.now) }
    ensures calls { result.calls ≡ in_32_bits (part_calls m.now) }
{
    let mut count = Count::of(2);
    for p in m.procs.as_slice() {
        count = count.and(proc_count(p));
    }
    count
}

/// How many words a procedure has that aren't too many.
pub(crate) fn size_of_proc(p: &Procedure) -> u32
    requires { size_of_proc p.now ≤ MOST_WORDS }
    ensures { result ≡ size_of_proc p.now }
{
    proc_count(p).words
}

/// Whether the code of a module hasn't too many words.
pub(crate) fn code_fits(m: &Program) -> bool
    ensures { result ≡ nat_le (code_words m.now) MOST_WORDS }
{
    code_count(m).words <= MOST_WORDS
}

/// The words of the data that pairs take up.
pub(crate) fn pair_count(m: &Program) -> u32
    requires { IsProgram m.now }
    ensures { result ≡ pair_count m.now }
{
    2 * (m.imports.as_slice().len() + m.procs.as_slice().len()) as u32
}

/// Whether the data of a module hasn't too many words.
#[tactic(auto, unfolding(proc_templates::specs::Compiled::data_count))]
pub(crate) fn data_fits(m: &Program) -> bool
    requires { IsProgram m.now }
    ensures { result ≡ nat_le (data_count m.now) MOST_WORDS }
{
    m.globals.as_slice().len() <= (MOST_WORDS - pair_count(m)) as usize
}

/// Whether there is a return seal for each call.
pub(crate) fn seals_suffice(m: &Program) -> bool
    requires { IsProgram m.now }
    ensures { result ≡ nat_le (part_calls m.now) m.now.header.return_count }
{
    code_count(m).calls <= m.header.return_count
}

/// Whether nothing is called.
pub(crate) fn is_without_calls(m: &Program) -> bool
    ensures { result ≡ (part_calls m.now == 0) }
{
    code_count(m).calls == 0
}
