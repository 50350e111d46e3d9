//! Who is meant by names.
ghost use Rattle.std.specs.Prelude.{◌≡◌, IfOk, position, List, [], option_map};
ghost use Rattle.std.specs.Option.{option_copied};
ghost use Rattle.proc_semantics.specs.Values.{is_named, is_shared, shared_in, shared_at, found, has_main};
ghost use Rattle.proc_semantics.specs.Values.{main_target, home_part, proc_at, pair_found};
ghost use Rattle.proc_semantics.specs.Values.{pair_fed, register_fed};
ghost use Rattle.proc_semantics.specs.Values.{registers_fed, first_of, rest_of, taken, linked, import_in};
ghost use Rattle.proc_semantics.specs.Values.{pair_of};

use crate::places::{Run, pair_in, value_at};
use proc_program::{Handle, Procedure, Program, ProgramImport};
use proc_semantics::{Pair, Register, Target, Value};
use source_events::FeedPair;
use std::alloc::{AllocError, Global};

/// The name of the procedure at which a program starts.
const MAIN: &str = "main";

fn is_shared(name: &[u8], proc: &Procedure) -> bool
    ensures { result ≡ is_shared name.now proc.now }
{
    proc.shared && name == proc.name.as_slice()
}

fn is_named(part: &[u8], owner: &Program) -> bool
    ensures { result ≡ is_named part.now owner.now }
{
    part == owner.name.as_slice()
}

fn named(world: &[Program], part: &[u8]) -> Option<usize>
    ensures { result ≡ position (is_named part.now) world.now }
{
    world.iter().position(|owner| is_named(part, owner))
}

fn shared_place(owner: &Program, name: &[u8]) -> Option<usize>
    ensures { result ≡ position (is_shared name.now) owner.now.procs }
{
    owner
        .procs
        .as_slice()
        .iter()
        .position(|proc| is_shared(name, proc))
}

fn shared_in(world: &[Program], home: usize, name: &[u8]) -> Option<Target>
    ensures { result ≡ shared_in home name.now (home_part world.now home) }
{
    match world.get(home) {
        Some(owner) => match shared_place(owner, name) {
            Some(proc) => Some(Target { home, proc }),
            None => None,
        },
        None => None,
    }
}

/// The shared procedure of a part, by its name.
#[tactic(auto, unfolding(proc_semantics::specs::Values::found))]
pub(crate) fn found(world: &[Program], part: &[u8], name: &[u8]) -> Option<Target>
    ensures { result ≡ found world.now part.now name.now }
{
    match named(world, part) {
        Some(home) => shared_in(world, home, name),
        None => None,
    }
}

fn has_main(owner: &Program) -> bool
    ensures { result ≡ has_main owner.now }
{
    shared_place(owner, MAIN.as_bytes()).is_some()
}

fn first_main(world: &[Program]) -> Option<usize>
    ensures { result ≡ position has_main world.now }
{
    world.iter().position(|owner| has_main(owner))
}

/// The first shared main.
#[tactic(auto, unfolding(proc_semantics::specs::Values::main_target))]
pub(crate) fn main_of(world: &[Program]) -> Option<Target>
    ensures { result ≡ main_target world.now }
{
    match first_main(world) {
        Some(home) => shared_in(world, home, MAIN.as_bytes()),
        None => None,
    }
}

/// A procedure of the modules.
pub(crate) fn proc_at<'a>(world: &'a [Program], target: Target) -> Option<&'a Procedure>
    ensures { option_copied result ≡ proc_at world.now target }
{
    match world.get(target.home) {
        Some(owner) => owner.procs.as_slice().get(target.proc),
        None => None,
    }
}

fn pair_found(target: Option<Target>) -> Pair
    ensures { result ≡ pair_found target }
{
    match target {
        Some(target) => Pair::Runs(target),
        None => Pair::Bad,
    }
}

fn pair_fed(world: &[Program], pair: &FeedPair) -> Option<Pair>
    ensures { result ≡ pair_fed world.now pair.now }
{
    match pair {
        FeedPair::Nothing => None,
        FeedPair::Bad => Some(Pair::Bad),
        FeedPair::Out => Some(Pair::Outside),
        FeedPair::Hop(part, name) => Some(pair_found(found(
            world,
            part.as_slice(),
            name.as_slice(),
        ))),
    }
}

fn register_fed(
    world: &[Program],
    numbers: &[Option<i64>],
    pairs: &[FeedPair],
    i: usize,
) -> Register
    ensures { result ≡ register_fed world.now numbers.now pairs.now i }
{
    Register {
        number: match numbers.get(i) {
            Some(number) => *number,
            None => None,
        },
        pair: match pairs.get(i) {
            Some(pair) => pair_fed(world, pair),
            None => None,
        },
    }
}

/// The registers that an item of the feed tells of.
pub(crate) fn registers_fed(
    alloc: Global,
    world: &[Program],
    numbers: &[Option<i64>],
    pairs: &[FeedPair],
) -> Result<Vec<Register>, AllocError>
    ensures { IfOk result (λ r. r.items ≡ registers_fed world.now numbers.now pairs.now) }
{
    let fed = [
        register_fed(world, numbers, pairs, 0),
        register_fed(world, numbers, pairs, 1),
        register_fed(world, numbers, pairs, 2),
        register_fed(world, numbers, pairs, 3),
    ];
    Vec::from_slice(alloc, &fed)
}

fn first_of(registers: &[Register]) -> Register
    ensures { result ≡ first_of registers.now }
{
    match registers.first() {
        Some(register) => *register,
        None => Register {
            number: Some(0),
            pair: None,
        },
    }
}

fn rest_of(registers: &[Register]) -> &[Register]
    ensures { result.now ≡ rest_of registers.now }
{
    match registers.split_first() {
        Some((_, rest)) => rest,
        None => registers,
    }
}

/// What parameters take from registers, in order, if each finds what it needs.
pub(crate) fn taken(
    alloc: Global,
    callbacks: &[bool],
    registers: &[Register],
) -> Result<Option<Vec<Value>>, AllocError>
    ensures { IfOk result (λ r. option_map (λ env. env.items) r ≡ taken [] callbacks.now registers.now) }
{
    let mut env = Vec::new(alloc);
    let mut callbacks = callbacks;
    let mut registers = registers;
    loop {
        let Some((callback, more)) = callbacks.split_first() else {
            return Ok(Some(env));
        };
        callbacks = more;
        let first = first_of(registers);
        registers = rest_of(registers);
        if *callback {
            let Some(pair) = first.pair else {
                return Ok(None);
            };
            env.extend_from_slice(&[Value::Closure(pair), Value::Other])?;
            registers = rest_of(registers);
        } else {
            let Some(number) = first.number else {
                return Ok(None);
            };
            env.push(Value::Num(number))?;
        }
    }
}

fn import_in<'a>(world: &'a [Program], home: usize, k: u32) -> Option<&'a ProgramImport>
    ensures { option_copied result ≡ import_in (home_part world.now home) k }
{
    match world.get(home) {
        Some(owner) => owner.imports.as_slice().get(k as usize),
        None => None,
    }
}

#[tactic(auto, unfolding(proc_semantics::specs::Values::linked))]
fn linked(world: &[Program], import: Option<&ProgramImport>) -> Pair
    ensures { result ≡ linked world.now (option_copied import.entry) }
{
    match import {
        None => Pair::Bad,
        Some(import) => match named(world, import.part.as_slice()) {
            Some(home) => pair_found(shared_in(world, home, import.name.as_slice())),
            None => Pair::Outside,
        },
    }
}

/// The pair that a handle stands for.
pub(crate) fn pair_of(world: &[Program], run: &Run, handle: Handle) -> Pair
    ensures { result ≡ pair_of world.now run.now.frame.home run.now.env.items handle }
{
    match handle {
        Handle::Given(i) => pair_in(value_at(&run.env, i as usize, Value::Other)),
        Handle::Own(j) => Pair::Runs(Target {
            home: run.frame.home,
            proc: j as usize,
        }),
        Handle::Imported(k) => linked(world, import_in(world, run.frame.home, k)),
    }
}
