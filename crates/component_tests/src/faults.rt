//! The texts of faults and of rules, which no command writes.
use component_check::{Group, Rule};
use component_file::FileFault::{self, BadField, Magic, NoMemory, Order, Short, Trailing, Version};
use std::alloc::{AllocError, Global};
use std::test::Fail;

// Faults, and the number, the place and the text of each.
static FAULTS: [(FileFault, &str); 7] = [
    (Magic, "1 0 the file does not begin with STKC"),
    (Version, "2 0 the version is neither 1 nor 2"),
    (Short(7), "3 7 the file ends within the field at byte 7"),
    (BadField(8), "4 8 the field at byte 8 is not valid"),
    (Order(9), "5 9 the item at byte 9 is out of order"),
    (Trailing(90), "6 90 the component ends before byte 90"),
    (NoMemory, "7 0 out of memory"),
];

fn fault_text(alloc: Global, fault: FileFault) -> Result<String, AllocError> {
    format!(in alloc; "{} {} {fault}", fault.number(), fault.place())
}

#[test]
fn each_fault_has_its_number_its_place_and_its_text(rt: HostRuntime) -> Result<(), Fail> {
    for (fault, text) in &FAULTS {
        assert_eq!(rt; fault_text(rt.alloc(), *fault)?.as_str(), *text);
    }
    Ok(())
}

// Groups and numbers of rules, and how they print.
static PRINTED: [(Group, u8, &str); 5] = [
    (Group::C, 7, "C7"),
    (Group::K, 10, "K10"),
    (Group::L, 3, "L3"),
    (Group::L, 255, "L255"),
    (Group::C, 0, "C0"),
];

#[test]
fn a_rule_prints_as_its_letter_and_number(rt: HostRuntime) -> Result<(), Fail> {
    for (group, number, wanted) in &PRINTED {
        let rule = Rule {
            group: *group,
            number: *number,
        };
        let printed = format!(in rt.alloc(); "{rule}")?;
        assert_eq!(rt;
            (rule.text().as_str(), printed.as_str()),
            (*wanted, *wanted)
        );
    }
    Ok(())
}
