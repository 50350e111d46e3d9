//! Places of procedures, words of globals, and registers.
ghost use Rattle.std.specs.Prelude.{◌≡◌, ℤ, pos, List, [], IfOk, map, slice_index_or, slice_set};
ghost use Rattle.proc_semantics.specs.Values.{global_word, set_word, number_in, pair_in};
ghost use Rattle.proc_semantics.specs.Values.{register_of, value_arg, out_at, value_args};

use proc_semantics::{Activation, Pair, Register, Value};
use source_events::OutArg;
use std::alloc::{AllocError, Global};
use std::marker::Model;
use std::mem;

/// One run of a procedure.
#[derive(Drop)]
pub(crate) struct Run {
    /// What stays.
    pub(crate) frame: Activation,
    /// Its parameters and locals.
    pub(crate) env: Vec<Value>,
}

impl Run {
    /// What stands where no procedure runs.
    pub(crate) fn none(alloc: Global) -> Run {
        let frame = Activation {
            home: 0,
            left: 0,
            need: 0,
        };
        Run {
            frame,
            env: Vec::new(alloc),
        }
    }

    /// The run that was, whose place another will take.
    pub(crate) fn leave(&mut self, alloc: Global) -> Run
        ensures { result ≡ self.old }
    {
        mem::replace(self, Run::none(alloc))
    }
}

/// The words of a module's globals.
#[derive(Drop)]
pub(crate) struct Words {
    words: Vec<i64>,
}

impl Model for Words {
    ghost Value = { List ℤ };

    ghost view = { λ w. w.words.items };
}

impl Words {
    /// What they are at first.
    pub(crate) fn of(alloc: Global, first: &[i64]) -> Result<Words, AllocError>
        ensures { IfOk result (λ w. w ≡ first.now) }
    {
        let words = Vec::from_slice(alloc, first)?;
        Ok(Words { words })
    }

    /// One of them; 0 where there is none.
    pub(crate) fn get(&self, o: usize) -> i64
        ensures { result ≡ slice_index_or self.now o (pos 0) }
    {
        match self.words.get(o) {
            Some(word) => *word,
            None => 0,
        }
    }

    /// One of them is set.
    pub(crate) fn set(&mut self, o: usize, value: i64)
        ensures { self.new ≡ slice_set self.old o value }
    {
        if let Some(word) = self.words.get_mut(o) {
            *word = value;
        }
    }
}

/// One of the words of a module's globals.
pub(crate) fn word_at(store: &[Words], home: usize, o: usize) -> i64
    ensures { result ≡ global_word store.now home o }
{
    match store.get(home) {
        Some(words) => words.get(o),
        None => 0,
    }
}

/// One of the words of a module's globals is set.
pub(crate) fn set_word(store: &mut Vec<Words>, home: usize, o: usize, value: i64)
    ensures { store.new.items ≡ set_word store.old.items home o value }
{
    if let Some(words) = store.get_mut(home) {
        words.set(o, value);
    }
}

/// The number in a place; 0 where there is none.
pub(crate) fn number_in(value: Value) -> i64
    ensures { result ≡ number_in value }
{
    match value {
        Value::Num(v) => v,
        _ => 0,
    }
}

/// The pair in a place; a bad one where there is none.
pub(crate) fn pair_in(value: Value) -> Pair
    ensures { result ≡ pair_in value }
{
    match value {
        Value::Closure(pair) => pair,
        _ => Pair::Bad,
    }
}

/// One of the places of a procedure.
pub(crate) fn value_at(env: &[Value], i: usize, other: Value) -> Value
    ensures { result ≡ slice_index_or env.now i other }
{
    match env.get(i) {
        Some(value) => *value,
        None => other,
    }
}

/// What a register holds that is handed a value.
pub(crate) fn register_of(value: Value) -> Register
    ensures { result ≡ register_of value }
{
    let (number, pair) = match value {
        Value::Num(v) => (Some(v), None),
        Value::Closure(pair) => (None, Some(pair)),
        Value::Other => (None, None),
    };
    Register { number, pair }
}

/// The registers that are handed values.
pub(crate) fn registers(alloc: Global, values: &[Value]) -> Result<Vec<Register>, AllocError>
    ensures { IfOk result (λ r. r.items ≡ map register_of values.now) }
{
    let mut registers = Vec::new(alloc);
    for value in values {
        registers.push(register_of(*value))?;
    }
    Ok(registers)
}

fn out_arg(value: Value) -> OutArg
    ensures { result ≡ value_arg value }
{
    match value {
        Value::Num(v) => OutArg::Int(v),
        _ => OutArg::Half,
    }
}

fn out_at(values: &[Value], i: usize) -> OutArg
    ensures { result ≡ out_at values.now i }
{
    out_arg(value_at(values, i, Value::Num(0)))
}

/// The registers of a call that leaves.
pub(crate) fn out_args(values: &[Value]) -> [OutArg; 4]
    ensures { result ≡ value_args values.now }
{
    [
        out_at(values, 0),
        out_at(values, 1),
        out_at(values, 2),
        out_at(values, 3),
    ]
}
