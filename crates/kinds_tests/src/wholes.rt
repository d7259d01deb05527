// Cents and pieces at the ends of 64 bits and at their bounds.
use crate::name_of;
use kinds::{Cents, Pieces, Total};
use std::cmp::Ordering;

fn cents(value: i64) -> Cents {
    Cents::new(value)
}

fn shown(total: Option<Cents>) -> Option<i64> {
    total?.column(1)
}

#[test]
fn entry_stops_at_the_bound(rt: HostRuntime) {
    assert!(rt; cents(1_000_000_000_000).may_enter());
    assert!(rt; cents(-1_000_000_000_000).may_enter());
    assert!(rt; !cents(1_000_000_000_001).may_enter());
    assert!(rt; !cents(-1_000_000_000_001).may_enter());
    assert!(rt; !cents(i64::MIN).may_enter());
    assert!(rt; !cents(i64::MAX).may_enter());
    assert!(rt; Pieces::new(-1_000_000_000).may_enter());
    assert!(rt; !Pieces::new(1_000_000_001).may_enter());
}

#[test]
fn sums_end_with_64_bits(rt: HostRuntime) {
    assert_eq!(rt; shown(cents(i64::MAX).sum(cents(1))), None);
    assert_eq!(rt; shown(cents(i64::MIN).sum(cents(-1))), None);
    assert_eq!(rt; shown(cents(i64::MAX).sum(cents(i64::MIN))), Some(-1));
    assert_eq!(rt; shown(cents(i64::MIN).difference(cents(1))), None);
    assert_eq!(rt; shown(cents(0).difference(cents(i64::MIN))), None);
    assert_eq!(rt;
        shown(cents(-1).difference(cents(i64::MIN))),
        Some(i64::MAX)
    );
    assert_eq!(rt; shown(cents(7).difference(cents(9))), Some(-2));
}

#[test]
fn compares_as_whole_numbers(rt: HostRuntime) {
    assert_eq!(rt; cents(i64::MIN).cmp(&cents(i64::MAX)), Ordering::Less);
    assert_eq!(rt; cents(3).cmp(&cents(3)), Ordering::Equal);
    assert_eq!(rt; cents(3).cmp(&cents(-3)), Ordering::Greater);
}

#[test]
fn has_column_one_alone(rt: HostRuntime) {
    assert_eq!(rt; cents(5).column(1), Some(5));
    assert_eq!(rt; cents(5).column(0), None);
    assert_eq!(rt; cents(5).column(2), None);
    assert_eq!(rt; cents(5).column(3), None);
    assert_eq!(rt; cents(5).column(255), None);
    assert_eq!(rt; shown(cents(5).replace(1, i64::MIN)), Some(i64::MIN));
    assert_eq!(rt; shown(cents(5).replace(2, 1)), None);
    assert_eq!(rt; shown(Some(Cents::zero())), Some(0));
}

#[test]
fn names_one_column(rt: HostRuntime) {
    assert_eq!(rt; name_of(cents(0), 1), 1);
    assert_eq!(rt; name_of(Pieces::new(0), 1), 2);
    assert_eq!(rt; name_of(cents(0), 0), 0);
    assert_eq!(rt; name_of(cents(0), 2), 0);
    assert_eq!(rt; name_of(cents(0), 255), 0);
}
