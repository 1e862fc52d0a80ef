// The criteria from outside, on a few sheets.
use crate::indifferent::Indifferent;
use crate::squares::Squares;
use criteria::criterion::Criterion;
use criteria::ranked::Ranked;
use std::cmp::Ordering;

const FEW: [u16; 8] = [2, 2, 0, 0, 0, 0, 0, 0];

const MANY: [u16; 8] = [3, 0, 0, 0, 0, 0, 0, 0];

fn one<C: Criterion>(c: &C, counts: &[u16; 8]) -> C::Total {
    c.add(c.none(), c.mark(100, counts))
}

// 4 + 4 against 9.
#[test]
fn squares_weigh_many_more(rt: HostRuntime) {
    let c = Squares;
    assert_eq!(rt; one(&c, &FEW), 8);
    assert_eq!(rt; one(&c, &MANY), 9);
    assert_eq!(rt; c.compare(one(&c, &FEW), one(&c, &MANY)), Ordering::Less);
}

#[test]
fn all_totals_are_equal(rt: HostRuntime) {
    let c = Indifferent;
    assert_eq!(rt; c.compare(one(&c, &FEW), c.none()), Ordering::Equal);
}

#[test]
fn ranked_takes_any_criterion(rt: HostRuntime) {
    let c = Ranked {
        first: Indifferent,
        second: Squares,
    };
    assert_eq!(rt; c.compare(one(&c, &FEW), one(&c, &MANY)), Ordering::Less);
}
