//! What a meaning still has to do.
use crate::places::Run;
use proc_language::Op;
use proc_program::{ArgExp, Array, CallExp, Exp, Location, Statement};
use proc_semantics::{Register, Target, Value};
use source_events::{End, FeedBack, Item, OutEvent};

/// What is to be done with a value, after a statement, or at the end of a procedure.
#[derive(Drop)]
pub(crate) enum Work<'a> {
    /// The value is an index.
    Index(Array),
    /// The value is the left operand.
    Right(Op, &'a Exp),
    /// The value is the right operand.
    Operate(Op, i64),
    /// The value is an argument of a call, after these and before those.
    Arg(&'a CallExp, Vec<Value>, &'a [ArgExp]),
    /// A variable is set.
    SetTo(Location),
    /// The value is the index of an element that is set.
    SetIndex(Array, &'a Exp),
    /// An element is set.
    SetElement(Array, i64),
    /// The value isn't used.
    Forget,
    /// The value is the condition of an `if`.
    Choose(&'a [Statement], &'a [Statement]),
    /// The value is the condition of a loop.
    Test(&'a Exp, &'a [Statement]),
    /// The value is a procedure's.
    Return,
    /// The value is the program's.
    Halt,
    /// Further statements.
    Rest(&'a [Statement]),
    /// A further turn of a loop.
    Turn(&'a Exp, &'a [Statement]),
    /// The procedure ends.
    Ends(Whence<'a>),
    /// A call waits here, with its number, and the words that it gave away.
    Waits(Run, u32, u32),
}

/// Whence a procedure came to be run.
#[derive(Drop)]
pub(crate) enum Whence<'a> {
    /// The meaning began with it.
    Start,
    /// It was called.
    Caller(Run),
    /// It was entered: the place of its module, the words that it was given, what its return does.
    Entered(usize, Option<u32>, &'a FeedBack),
}

/// What is done now.
#[derive(Drop)]
pub(crate) enum Now<'a> {
    /// An expression is evaluated.
    Eval(&'a Exp),
    /// The arguments of a call are evaluated: these are, those aren't.
    Args(&'a CallExp, Vec<Value>, &'a [ArgExp]),
    /// There is a value.
    Value(i64),
    /// A statement is done.
    Next,
    /// A procedure returns a value.
    Back(i64),
    /// A procedure that was entered has ended with a value.
    Left(usize, Option<u32>, &'a FeedBack, i64),
    /// A procedure begins, with the words that it is given, and its registers.
    Begin(Target, Option<u32>, Vec<Register>, Whence<'a>),
    /// The feed is asked.
    Wait,
    /// An item of the feed is there.
    Take(&'a Item),
    /// It fails.
    Fail,
}

/// What one turn leaves to be done.
#[derive(Drop)]
pub(crate) enum Ahead<'a> {
    /// At once.
    Free(Now<'a>),
    /// After so many ticks.
    Ticked(u64, Now<'a>),
    /// After an event.
    Said(OutEvent, Now<'a>),
    /// With the next item of the feed.
    Asks,
    /// Nothing.
    Stop(End),
}
