//! One region, filled and emptied.
use frame_region::Region;
use std::alloc::Global;
use std::process::Abort;
use std::test::Fail;

// What a region shows: how many cells are spare, how many frames there are, and the head and size of
// the newest.
fn shows(
    rt: &impl Abort,
    region: &Region<u32, u32>,
    spare: u32,
    frames: u32,
    newest: Option<(u32, u32)>,
) {
    assert_eq!(rt; region.spare(), spare);
    assert_eq!(rt; region.frames(), frames);
    let shown = match region.newest() {
        Some((head, size)) => Some((*head, size)),
        None => None,
    };
    assert_eq!(rt; shown, newest);
}

/// Frames of 1, 3 and 4 items in 8 cells: all are taken, and come back newest first.
#[test]
fn eight_cells(rt: HostRuntime) -> Result<(), Fail> {
    let mut region = Region::reserve(rt.alloc(), 8)?;
    shows(&rt, &region, 8, 0, None);
    region.begin(10, 1);
    region.push(1);
    shows(&rt, &region, 7, 1, Some((10, 1)));
    region.begin(20, 3);
    region.push(2);
    region.push(3);
    region.push(4);
    shows(&rt, &region, 4, 2, Some((20, 3)));
    region.begin(30, 4);
    region.push(5);
    region.push(6);
    region.push(7);
    region.push(8);
    shows(&rt, &region, 0, 3, Some((30, 4)));
    assert_eq!(rt; (*region.item(0), *region.item(3)), (5, 8));
    assert_eq!(rt;
        (*region.head(0), *region.head(1), *region.head(2)),
        (30, 20, 10)
    );
    assert_eq!(rt;
        (region.pop(), region.pop(), region.pop(), region.pop()),
        (8, 7, 6, 5)
    );
    assert_eq!(rt; region.finish(), 30);
    shows(&rt, &region, 4, 2, Some((20, 3)));
    assert_eq!(rt; (region.pop(), region.pop(), region.pop()), (4, 3, 2));
    assert_eq!(rt; region.finish(), 20);
    assert_eq!(rt; region.pop(), 1);
    assert_eq!(rt; region.finish(), 10);
    shows(&rt, &region, 8, 0, None);
    Ok(())
}
