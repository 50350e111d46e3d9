//! What a lot of two seals gives, and which ranges of seals are disjoint.
use seal_space::{SealLot, SealRange, disjoint};
use std::process::Abort;

#[test]
fn a_lot_of_two_gives_two(rt: HostRuntime) {
    let mut lot = SealLot::of(SealRange::new(1_048_574, 2));
    for (site, wanted) in [(7, 1_048_574), (0, 1_048_575)] {
        match lot.draw() {
            None => panic!(rt; "no seal for site {site}"),
            Some(token) => {
                assert_eq!(rt; token.number(), wanted);
                let bound = token.bind(site);
                assert_eq!(rt; (bound.seal, bound.site), (wanted, site));
            }
        }
    }
    for _ in 0..3 {
        if let Some(token) = lot.draw() {
            let bound = token.bind(0);
            panic!(rt; "a third seal, {}", bound.seal);
        }
    }
}

#[test]
fn ranges_are_disjoint_where_they_share_no_seal(rt: HostRuntime) {
    let cases = [
        ((10, 2), (12, 1), true),
        ((10, 2), (11, 1), false),
        ((12, 1), (10, 2), true),
        ((11, 5), (10, 2), false),
        ((10, 5), (12, 1), false),
        ((10, 5), (12, 0), true),
        ((0, 0), (0, 0), true),
        ((1_048_575, 65_536), (1_048_575, 1), false),
    ];
    for (first, second, wanted) in cases {
        let a = SealRange::new(first.0, first.1);
        let b = SealRange::new(second.0, second.1);
        assert_eq!(rt; disjoint(&a, &b), wanted, "{first:?} {second:?}");
    }
}
