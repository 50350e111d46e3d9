//! How faults of sources print, and their numbers.
use proc_compiler::CompileFault;
use proc_names::NameFault;
use std::process::Abort;
use std::test::Fail;
use token_check::TokenFault;

#[test]
fn faults_of_names_print(rt: HostRuntime) -> Result<(), Fail> {
    for (fault, text) in [
        (
            NameFault::Unknown(7),
            "byte 7: there is nothing of this name",
        ),
        (NameFault::Twice(0), "byte 0: this name is taken"),
        (
            NameFault::Arity(12),
            "byte 12: other arguments than it takes",
        ),
        (
            NameFault::WrongKind(4_294_967_295),
            "byte 4294967295: a name of something else",
        ),
    ] {
        assert_eq!(&rt; format!(in rt.alloc(); "{fault}")?.as_str(), text);
    }
    Ok(())
}

#[test]
fn faults_of_tokens_print(rt: HostRuntime) -> Result<(), Fail> {
    for (fault, text) in [
        (TokenFault::Empty(7), "byte 7: this token is empty"),
        (TokenFault::Full(0), "byte 0: this token is full"),
        (TokenFault::Kept(12), "byte 12: a token is still full"),
        (
            TokenFault::Split(4_294_967_295),
            "byte 4294967295: other tokens are full on another way",
        ),
        (TokenFault::Dead(9), "byte 9: nothing leads here"),
    ] {
        assert_eq!(&rt; format!(in rt.alloc(); "{fault}")?.as_str(), text);
    }
    Ok(())
}

#[test]
fn faults_of_sizes_have_numbers(rt: HostRuntime) {
    for (fault, number) in [
        (CompileFault::TooLarge, 10),
        (CompileFault::SealsShort, 11),
        (CompileFault::NoMemory, 12),
    ] {
        assert_eq!(&rt; (fault.number(), fault.place()), (number, 0));
    }
}
