//! Rules of modules that `stk mean` has no words for: of no module; and of an import of a module's own
//! procedure by its own name, which is a fault of its names.
use module_rules::check_modules;
use proc_language::Module;
use proc_parse::parse;
use std::alloc::{AllocError, Global};
use std::process::Abort;
use std::test::Fail;

const IMPORTS_ITSELF: &[u8] =
    b"module a code 1 data 3 closure 0 returns 1 0 stack 9;import a.f/0;proc f(){}";

fn is_told(
    rt: &impl Abort,
    alloc: Global,
    modules: &[Module],
    size: u32,
    wanted: &str,
) -> Result<(), AllocError> {
    assert!(rt; modules.len() < 100);
    match check_modules(modules, size) {
        Ok(()) => assert_eq!(rt; wanted, "ok"),
        Err(at) => assert_eq!(rt; format!(in alloc; "{at}")?.as_str(), wanted),
    }
    Ok(())
}

#[test]
fn rules_of_no_module(rt: HostRuntime) -> Result<(), Fail> {
    is_told(&rt, rt.alloc(), &[], 64, "ok")?;
    is_told(&rt, rt.alloc(), &[], 0, "0 L8 0")?;
    Ok(())
}

#[test]
fn a_module_may_import_from_itself(rt: HostRuntime) -> Result<(), Fail> {
    match parse(rt.alloc(), IMPORTS_ITSELF) {
        Ok(m) => is_told(&rt, rt.alloc(), &[m], 64, "ok")?,
        Err(_) => panic!(&rt; "no module"),
    }
    Ok(())
}
