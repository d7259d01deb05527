// Pairs: the order by the first part, then by the second, and columns that do not exist.
use crate::name_of;
use kinds::{Cents, Mobile, Pair, Pieces, Total};
use std::cmp::Ordering;

fn mobile(cents: i64, pieces: i64) -> Mobile {
    Pair {
        first: Cents::new(cents),
        second: Pieces::new(pieces),
    }
}

fn shown(total: Option<Mobile>) -> Option<(i64, i64)> {
    let x = total?;
    Some((x.column(1)?, x.column(2)?))
}

#[test]
fn ties_are_broken_by_the_second_part(rt: HostRuntime) {
    assert_eq!(rt; mobile(4, 1).cmp(&mobile(4, 3)), Ordering::Less);
    assert_eq!(rt; mobile(4, 3).cmp(&mobile(4, 3)), Ordering::Equal);
    assert_eq!(rt; mobile(4, 3).cmp(&mobile(4, 2)), Ordering::Greater);
    assert_eq!(rt; mobile(3, 9).cmp(&mobile(4, -9)), Ordering::Less);
    assert_eq!(rt; mobile(5, -9).cmp(&mobile(4, 9)), Ordering::Greater);
}

#[test]
fn both_parts_need_a_value(rt: HostRuntime) {
    assert_eq!(rt; shown(mobile(1, 2).sum(mobile(10, 20))), Some((11, 22)));
    assert_eq!(rt;
        shown(mobile(1, 2).difference(mobile(10, 20))),
        Some((-9, -18))
    );
    assert_eq!(rt; shown(mobile(i64::MAX, 0).sum(mobile(1, 0))), None);
    assert_eq!(rt; shown(mobile(0, i64::MAX).sum(mobile(0, 1))), None);
    assert_eq!(rt; shown(mobile(-2, 0).difference(mobile(i64::MAX, 0))), None);
    assert_eq!(rt; shown(mobile(0, -2).difference(mobile(0, i64::MAX))), None);
}

#[test]
fn both_bounds_hold(rt: HostRuntime) {
    assert!(rt; mobile(1_000_000_000_000, -1_000_000_000).may_enter());
    assert!(rt; !mobile(1_000_000_000_001, 0).may_enter());
    assert!(rt; !mobile(0, 1_000_000_001).may_enter());
}

#[test]
fn columns_are_one_and_two(rt: HostRuntime) {
    assert_eq!(rt; mobile(6, 7).column(1), Some(6));
    assert_eq!(rt; mobile(6, 7).column(2), Some(7));
    assert_eq!(rt; mobile(6, 7).column(0), None);
    assert_eq!(rt; mobile(6, 7).column(3), None);
    assert_eq!(rt; mobile(6, 7).column(255), None);
    assert_eq!(rt; shown(mobile(6, 7).replace(1, 9)), Some((9, 7)));
    assert_eq!(rt; shown(mobile(6, 7).replace(2, 9)), Some((6, 9)));
    assert_eq!(rt; shown(mobile(6, 7).replace(0, 9)), None);
    assert_eq!(rt; shown(mobile(6, 7).replace(3, 9)), None);
}

#[test]
fn names_are_those_of_the_parts(rt: HostRuntime) {
    assert_eq!(rt; name_of(mobile(0, 0), 1), 1);
    assert_eq!(rt; name_of(mobile(0, 0), 2), 2);
    assert_eq!(rt; name_of(mobile(0, 0), 3), 0);
    let twins = Pair {
        first: Cents::new(1),
        second: Cents::new(2),
    };
    assert_eq!(rt; name_of(twins, 1), 1);
    assert_eq!(rt; name_of(twins, 2), 1);
}
