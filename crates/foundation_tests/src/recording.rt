// Each refusal of the recording calls at its edge: the last value that is accepted, the first that is refused.
// Tables have the arguments of a call and the number of its refusal, 0 for an accepted call.
use crate::{BLANK, number};
use model::size::Size;
use roll::Roll;

#[test]
fn new_is_bounded(rt: HostRuntime) {
    let cases = [
        (0, 0, 0, 1),
        (1, 1, 8, 0),
        (1, 1, 9, 1),
        (0, 0, 1, 2),
        (32768, 1, 1, 0),
        (32769, 1, 1, 2),
        (1, 0, 1, 3),
        (1, 4096, 1, 0),
        (1, 4097, 1, 3),
    ];
    let mut places = [BLANK; 1];
    let mut roll = Roll::idle(&mut places);
    for (cells, sheet, parameters, refusal) in cases {
        assert_eq!(rt; number(roll.new(cells, sheet, parameters)), refusal);
    }
    assert_eq!(rt; roll.size().sheet, 4096);
}

// A size is three numbers, of which a caller may make any, as one to compare with.
#[test]
fn any_size_can_be_compared(rt: HostRuntime) {
    let mut places = [BLANK; 1];
    let roll = Roll::idle(&mut places);
    let size = Size {
        cells: 0,
        sheet: 65535,
        parameters: 9,
    };
    assert_eq!(rt; size.sheet, 65535);
    assert_eq!(rt; roll.size() == size, false);
}

// An idle roll has one parameter and one cell.
#[test]
fn readings_of_an_idle_roll(rt: HostRuntime) {
    let cases = [(2, 0, 4), (1, 1, 0), (1, 2, 5)];
    let mut places = [BLANK; 2];
    let mut roll = Roll::idle(&mut places);
    for (parameter, position, refusal) in cases {
        assert_eq!(rt; number(roll.reading(parameter, position, 1.0)), refusal);
    }
}

#[test]
fn readings_are_bounded(rt: HostRuntime) {
    let cases = [
        (0, 11, 4),
        (3, 11, 4),
        (2, 4_294_967_295, 5),
        (2, 9, 0),
        (2, 9, 6),
        (1, 9, 0),
        (2, 10, 0),
        (1, 9, 6),
        (1, 10, 7),
    ];
    let mut places = [BLANK; 3];
    let mut roll = Roll::idle(&mut places);
    assert_eq!(rt; number(roll.new(10, 3, 2)), 0);
    for (parameter, position, refusal) in cases {
        assert_eq!(rt; number(roll.reading(parameter, position, 1.0)), refusal);
    }
}

// The latest of the parameter goes, and its place and position are free again.
#[test]
fn withdrawals_are_bounded(rt: HostRuntime) {
    let mut places = [BLANK; 3];
    let mut roll = Roll::idle(&mut places);
    assert_eq!(rt; number(roll.new(10, 3, 2)), 0);
    for (parameter, refusal) in [(0, 4), (3, 4), (1, 8)] {
        assert_eq!(rt; number(roll.withdraw(parameter)), refusal);
    }
    for (parameter, position) in [(1, 2), (2, 3), (1, 5)] {
        assert_eq!(rt; number(roll.reading(parameter, position, 1.0)), 0);
    }
    for (parameter, refusal) in [(2, 0), (2, 8), (1, 0)] {
        assert_eq!(rt; number(roll.withdraw(parameter)), refusal);
    }
    for (position, refusal) in [(2, 6), (3, 0)] {
        assert_eq!(rt; number(roll.reading(1, position, 1.0)), refusal);
    }
    assert_eq!(rt; roll.readings().len(), 2);
}

#[test]
fn bars_are_bounded(rt: HostRuntime) {
    let mut places = [BLANK; 1];
    let mut roll = Roll::idle(&mut places);
    assert_eq!(rt; number(roll.new(10, 3, 1)), 0);
    for (from, to, refusal) in [(0, 10, 9), (1, 11, 9), (5, 4, 9), (5, 5, 0)] {
        assert_eq!(rt; number(roll.bar(from, to)), refusal);
    }
    for _i in 1..64 {
        assert_eq!(rt; number(roll.bar(1, 10)), 0);
    }
    for (from, to, refusal) in [(1, 10, 10), (0, 10, 9)] {
        assert_eq!(rt; number(roll.bar(from, to)), refusal);
    }
    assert_eq!(rt; roll.bars().len(), 64);
}
