// The criteria of the library, on a few sheets.
use criteria::criterion::Criterion;
use criteria::ladder::Ladder;
use criteria::ranked::Ranked;
use criteria::single::Single;
use criteria::tally::{Class, Tally};
use std::cmp::Ordering;

// The sheets of the roll of three cells: the one that ends at 2, and the one that ends at 3.
const EARLIER: [u16; 8] = [1, 0, 0, 0, 0, 0, 0, 0];

const LATER: [u16; 8] = [0, 1, 0, 0, 0, 0, 0, 0];

fn compared<C: Criterion>(c: &C) -> Ordering {
    let earlier = c.add(c.none(), c.mark(2, &EARLIER));
    let later = c.add(c.none(), c.mark(2, &LATER));
    c.compare(earlier, later)
}

#[test]
fn two_sheets_are_compared(rt: HostRuntime) {
    assert_eq!(rt; compared(&Ladder), Ordering::Greater);
    assert_eq!(rt; compared(&Tally), Ordering::Equal);
    assert_eq!(rt;
        compared(&Ranked {
            first: Tally,
            second: Ladder,
        },),
        Ordering::Greater
    );
    assert_eq!(rt;
        compared(&Ranked {
            first: Ranked {
                first: Tally,
                second: Single { parameter: 2 },
            },
            second: Ladder,
        },),
        Ordering::Less
    );
}

// Any number but 1 to 8 means parameter 1.
#[test]
fn single_takes_its_parameter(rt: HostRuntime) {
    for (parameter, order) in [
        (0, Ordering::Greater),
        (1, Ordering::Greater),
        (2, Ordering::Less),
        (8, Ordering::Equal),
        (9, Ordering::Greater),
    ] {
        assert_eq!(rt; compared(&Single { parameter }), order);
    }
}

// Of 1,000 cells: none, up to 20, up to 50, more.
#[test]
fn classes_have_their_borders(rt: HostRuntime) {
    for (worst, class) in [
        (0, Class::A),
        (1, Class::B),
        (20, Class::B),
        (21, Class::C),
        (50, Class::C),
        (51, Class::D),
    ] {
        assert_eq!(rt; Tally.mark(1000, &[0, 0, 0, worst, 0, 0, 0, 0]), class);
    }
}
