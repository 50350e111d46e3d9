//! Lists in the very type whose items they have.
use cap_words::Items;
use std::process::Abort;
use std::test::Fail;

#[derive(Drop)]
struct Tree {
    branches: Items<Tree>,
}

#[test]
fn a_type_has_lists_of_its_own_kind(rt: HostRuntime) -> Result<(), Fail> {
    let mut branches = Vec::new(rt.alloc());
    branches.push(Tree {
        branches: Items::of(Vec::new(rt.alloc())),
    })?;
    let tree = Tree {
        branches: Items::of(branches),
    };
    assert!(rt; tree.branches.as_slice().len() == 1);
    Ok(())
}
