//! What modules mean that `stk mean` refuses, and what a meaning tells with numbers that none reaches.
use cap_words::Items;
use line_fields::read_feed;
use proc_language::Module;
use proc_meaning::{meaning, told_text};
use proc_parse::parse;
use source_events::{End, Item, OutArg, OutEvent, Told};
use std::alloc::{AllocError, Global};
use std::process::Abort;
use std::test::Fail;

// Stacks at two places, and an import of what isn't shared: these break the rules L7 and L5.
const FRONT: &[u8] = b"module front code 4096 data 8192 closure 10 returns 11 9 stack 1000;
import behind.keep/1; import behind.each/3; import behind.own/0; import adv.show/1;
global n = 1;
export proc twice(y) { n = n + 1; return keep(y) + keep(n); }
export proc tell() { each(proc show, 2); return each(proc twice, 1); }
export proc wrong() { return own(); }";

const BEHIND: &[u8] = b"module behind code 4096 data 8192 closure 10 returns 11 9 stack 5000;
import front.twice/1;
global n = 40;
export proc keep(y) { n = n + y; return n; }
export proc each(f/1, y) { local i; while i < y { i = i + 1; again(proc f, i); } return n; }
proc again(f/1, y) { return f(y); }
proc own() { return 1; }";

const FEED: &[u8] = b"enter front tell cap(rw,lin,1000,1063,0) 0 0 0 0 out
ret out behind 1 5041 5041 0 :
ret out behind 1 5041 5041 0 :
enter front wrong cap(rw,lin,1000,1063,0) 0 0 0 0 out";

const TOLD: &[u8] = b"call behind 1 1 0 0 0
call behind 1 2 0 0 0
leave front 43
fail ticks 218
";

// Each value that owns much goes to a function of its own: each way out of a function that has one is
// proved at length.
fn push_module(
    rt: &impl Abort,
    alloc: Global,
    modules: &mut Vec<Module>,
    text: &[u8],
) -> Result<(), AllocError> {
    assert!(rt; text.len() < 10_000);
    match parse(alloc, text) {
        Ok(m) => modules.push(m)?,
        Err(_) => panic!(rt; "no module"),
    }
    Ok(())
}

fn told(alloc: Global, modules: &[Module], feed: &[Item]) -> Result<Vec<u8>, AllocError> {
    told_text(alloc, &meaning(alloc, modules, 64, feed, 1000)?)
}

fn is_told(rt: &impl Abort, alloc: Global, modules: &[Module]) -> Result<(), Fail> {
    let feed = read_feed(alloc, 1000, FEED)?;
    let text = told(alloc, modules, feed.as_slice())?;
    assert_eq!(rt; text.as_slice(), TOLD);
    Ok(())
}

#[test]
fn modules_whose_rules_are_broken_have_a_meaning(rt: HostRuntime) -> Result<(), Fail> {
    let mut modules = Vec::new(rt.alloc());
    push_module(&rt, rt.alloc(), &mut modules, FRONT)?;
    push_module(&rt, rt.alloc(), &mut modules, BEHIND)?;
    is_told(&rt, rt.alloc(), modules.as_slice())
}

const GREATEST: &[u8] = b"call _0 4294967295 half -9223372036854775808 9223372036854775807 half
fail ticks 18446744073709551615
";

fn call(alloc: Global) -> Result<OutEvent, AllocError> {
    let part = Items::of(Vec::from_slice(alloc, b"_0")?);
    let args = [
        OutArg::Half,
        OutArg::Int(i64::MIN),
        OutArg::Int(i64::MAX),
        OutArg::Half,
    ];
    Ok(OutEvent::CallOut(part, u32::MAX, args))
}

#[test]
fn the_greatest_numbers_are_written(rt: HostRuntime) -> Result<(), Fail> {
    let mut events = Vec::new(rt.alloc());
    events.push(call(rt.alloc())?)?;
    let told = Told {
        events: Items::of(events),
        end: End::Fail,
        ticks: u64::MAX,
    };
    let text = told_text(rt.alloc(), &told)?;
    assert_eq!(rt; text.as_slice(), GREATEST);
    Ok(())
}
