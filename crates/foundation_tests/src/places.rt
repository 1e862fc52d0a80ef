// Lent places: none, and more than a roll uses; what unused ones keep.
use crate::{BLANK, number};
use roll::Roll;
use std::test::Fail;

#[test]
fn a_roll_of_no_places(rt: HostRuntime) {
    let mut places = [BLANK; 0];
    let mut roll = Roll::idle(&mut places);
    assert_eq!(rt; number(roll.reading(1, 2, 1.0)), 5);
    assert_eq!(rt; number(roll.reading(1, 0, 1.0)), 7);
    assert_eq!(rt; number(roll.withdraw(1)), 8);
    assert_eq!(rt; roll.readings().len(), 0);
}

// The freed place keeps what it held: a copy of the reading that moved forward.
#[test]
fn unused_places_keep_what_they_held(rt: HostRuntime) {
    let mut places = [BLANK; 3];
    {
        let mut roll = Roll::idle(&mut places);
        assert_eq!(rt; number(roll.new(10, 3, 2)), 0);
        assert_eq!(rt; number(roll.reading(1, 2, 1.0)), 0);
        assert_eq!(rt; number(roll.reading(2, 4, 2.0)), 0);
        assert_eq!(rt; number(roll.withdraw(1)), 0);
    }
    assert_eq!(rt; places[0].position, 4);
    assert_eq!(rt; places[1].position, 4);
    assert_eq!(rt; places[2], BLANK);
}

#[test]
fn at_most_65536_places_are_used(rt: HostRuntime) -> Result<(), Fail> {
    let mut places = vec![in rt.alloc(); BLANK; 65537]?;
    let mut roll = Roll::idle(&mut places);
    assert_eq!(rt; number(roll.new(32768, 1, 2)), 0);
    for position in 0..32768 {
        assert_eq!(rt; number(roll.reading(1, position, 1.0)), 0);
        assert_eq!(rt; number(roll.reading(2, position, 1.0)), 0);
    }
    assert_eq!(rt; number(roll.reading(1, 32768, 1.0)), 7);
    assert_eq!(rt; number(roll.withdraw(2)), 0);
    assert_eq!(rt; number(roll.reading(1, 32768, 1.0)), 0);
    Ok(())
}
