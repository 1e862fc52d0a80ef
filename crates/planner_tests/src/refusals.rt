// What plan refuses, in which order, and what it leaves then.
use crate::sample::record;
use crate::{BLANK, NO_END, UNUSED};
use criteria::single::Single;
use model::refusal::Refusal;
use planner::plan;
use recipe::Recipe;
use roll::Roll;
use std::test::Fail;

const BY: Single = Single { parameter: 1 };

// A parameter without limits comes before a table and places that are too short.
#[test]
fn limits_come_first(rt: HostRuntime) -> Result<(), Fail> {
    let mut places = [BLANK; 3];
    let mut roll = Roll::idle(&mut places);
    let mut recipe = Recipe::fresh();
    record(&mut roll, &mut recipe)?;
    roll.new(10, 3, 2)?;
    let mut work = [UNUSED; 1];
    let Err(refusal) = plan(&roll, &recipe, &BY, &mut work, &mut []) else {
        return Err(Fail::new("parameter 2 has no limits"));
    };
    assert_eq!(rt; refusal, Refusal::WithoutLimits { parameter: 2 });
    assert_eq!(rt; work[0], UNUSED);
    Ok(())
}

// Ten cells need eleven places.
#[test]
fn the_table_is_measured(rt: HostRuntime) -> Result<(), Fail> {
    let mut places = [BLANK; 3];
    let mut roll = Roll::idle(&mut places);
    let mut recipe = Recipe::fresh();
    record(&mut roll, &mut recipe)?;
    let mut work = [UNUSED; 10];
    let Err(refusal) = plan(&roll, &recipe, &BY, &mut work, &mut []) else {
        return Err(Fail::new("the table has ten places"));
    };
    assert_eq!(rt; refusal, Refusal::WorkTooShort);
    for place in work {
        assert_eq!(rt; place, UNUSED);
    }
    Ok(())
}

// Two sheets and one place: the number is told, the table filled, the place left alone.
#[test]
fn the_places_for_ends_are_measured(rt: HostRuntime) -> Result<(), Fail> {
    let mut places = [BLANK; 3];
    let mut roll = Roll::idle(&mut places);
    let mut recipe = Recipe::fresh();
    record(&mut roll, &mut recipe)?;
    let mut work = [UNUSED; 11];
    let mut ends = [NO_END; 1];
    let Err(refusal) = plan(&roll, &recipe, &BY, &mut work, &mut ends) else {
        return Err(Fail::new("there is one place"));
    };
    assert_eq!(rt; refusal, Refusal::EndsTooShort { sheets: 2 });
    assert_eq!(rt; ends, [NO_END]);
    assert_eq!(rt; (work[10].sheets, work[10].total), (2, 1));
    assert_eq!(rt; work[10].last, 9);
    Ok(())
}
