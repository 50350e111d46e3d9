//! Lists of parts that no words name, none and seventeen; and the texts of faults of images.
use crate::parts::part;
use component_check::{Group, Rule};
use component_file::FileFault;
use component_linker::{LinkFault, Part, RuleAt, link};
use image_loader::ImageFault::{
    self, BadField, File, Magic, NoMemory, Rule as RuleFault, Short, Trailing, Version,
};
use std::alloc::{AllocError, Global};
use std::process::Abort;
use std::test::Fail;

// The rule that parts break with a stack of this size, or `ok`.
fn told(rt: &impl Abort, alloc: Global, parts: &[Part], stack: u32) -> Result<String, AllocError> {
    assert!(rt; parts.len() < 100);
    match link(alloc, parts, stack) {
        Ok(_) => String::from_str(alloc, "ok"),
        Err(LinkFault::Rule(at)) => format!(in alloc; "{at}"),
        Err(LinkFault::NoMemory) => Err(AllocError),
    }
}

#[test]
fn no_part_has_no_main(rt: HostRuntime) -> Result<(), Fail> {
    assert_eq!(rt; told(&rt, rt.alloc(), &[], 64)?.as_str(), "0 L6 0");
    assert_eq!(rt; told(&rt, rt.alloc(), &[], 1)?.as_str(), "0 L6 0");
    Ok(())
}

const MAIN: &str = "\
.name one
.stack 65536
.closure 1
.code 100
halt
.data 200
.int 0
.export main 0 shared";

// A part with a name, a seal and places of its own.
fn push_another(
    rt: &impl Abort,
    alloc: Global,
    parts: &mut Vec<Part>,
    number: u32,
) -> Result<(), AllocError> {
    let text = format!(in alloc;
        ".name p{number}\n.stack 65536\n.closure {number}\n.code {number}000\nhalt\n\
         .data {number}500\n.int 0\n"
    )?;
    parts.push(part(rt, alloc, text.as_str(), false))?;
    Ok(())
}

fn seventeen_are_too_many(
    rt: &impl Abort,
    alloc: Global,
    parts: &mut Vec<Part>,
) -> Result<(), AllocError> {
    parts.push(part(rt, alloc, MAIN, false))?;
    for number in 2..=16 {
        push_another(rt, alloc, parts, number)?;
    }
    let sixteen = told(rt, alloc, parts, 64)?;
    push_another(rt, alloc, parts, 17)?;
    let seventeen = told(rt, alloc, parts, 64)?;
    let small = told(rt, alloc, parts, 1)?;
    assert_eq!(rt; sixteen.as_str(), "ok");
    assert_eq!(rt; seventeen.as_str(), "16 L9 17");
    assert_eq!(rt; small.as_str(), "17 L8 1");
    Ok(())
}

#[test]
fn sixteen_parts_are_enough(rt: HostRuntime) -> Result<(), Fail> {
    let mut parts = Vec::new(rt.alloc());
    seventeen_are_too_many(&rt, rt.alloc(), &mut parts)?;
    Ok(())
}

// Faults, and the number, the place and the text of each.
static FAULTS: [(ImageFault, &str); 8] = [
    (Magic, "1 0 the image does not begin with STKI"),
    (Version, "2 0 the version is not 1"),
    (Short(7), "3 7 the image ends within the field at byte 7"),
    (BadField(8), "4 8 the field at byte 8 is not valid"),
    (Trailing(107), "5 107 the image ends before byte 107"),
    (
        File(3, FileFault::Order(9)),
        "6 0 part 3: the item at byte 9 is out of order",
    ),
    (RuleFault(L4_AT_2), "7 0 1 L4 2"),
    (NoMemory, "8 0 out of memory"),
];

const L4_AT_2: RuleAt = RuleAt {
    rule: Rule {
        group: Group::L,
        number: 4,
    },
    part: 1,
    place: 2,
};

fn fault_text(alloc: Global, fault: ImageFault) -> Result<String, AllocError> {
    format!(in alloc; "{} {} {fault}", fault.number(), fault.place())
}

#[test]
fn each_fault_has_its_number_its_place_and_its_text(rt: HostRuntime) -> Result<(), Fail> {
    for (fault, text) in &FAULTS {
        assert_eq!(rt; fault_text(rt.alloc(), *fault)?.as_str(), *text);
    }
    Ok(())
}
