// The sample roll: ten cells, sheets of three, good ends 3, 8, 9 and 10 with 1, 1, 0 and 0 outliers.
use crate::{BLANK, NO_END, UNUSED};
use choices::work::WorkPlace;
use criteria::single::Single;
use criteria_tests::indifferent::Indifferent;
use model::refusal::Refusal;
use planner::plan;
use recipe::Recipe;
use roll::Roll;
use sheets::count;
use std::test::Fail;

// The foundation's tests record it too: one function for both would be a library's, with a contract that says these
// calls again.
pub(crate) fn record(roll: &mut Roll, recipe: &mut Recipe) -> Result<(), Refusal> {
    roll.new(10, 3, 1)?;
    recipe.limits(1, 1.0, 2.0, 400)?;
    roll.reading(1, 0, 1.5)?;
    roll.reading(1, 4, 3.0)?;
    roll.reading(1, 7, 1.5)
}

// Sheets, total and last end of the best choice up to each position.
fn expected(position: usize) -> WorkPlace<u32> {
    let (sheets, total, last) = match position {
        0..=2 => (0, 0, 0),
        3..=7 => (1, 1, 3),
        8 => (2, 2, 8),
        _ => (2, 1, 9),
    };
    WorkPlace {
        sheets,
        total,
        last,
    }
}

// 3 and 9 cost 1, and so do 3 and 10, of which the last end is later. Places behind those needed keep what they held.
#[test]
fn the_cheapest_and_earliest_is_planned(rt: HostRuntime) -> Result<(), Fail> {
    let mut places = [BLANK; 3];
    let mut roll = Roll::idle(&mut places);
    let mut recipe = Recipe::fresh();
    record(&mut roll, &mut recipe)?;
    let mut work = [UNUSED; 12];
    let mut ends = [NO_END; 3];
    let planned = plan(
        &roll,
        &recipe,
        &Single { parameter: 1 },
        &mut work,
        &mut ends,
    )?;
    assert_eq!(rt; ends, [3, 9, NO_END]);
    assert_eq!(rt; (planned.sheets, planned.total), (2, 1));
    assert_eq!(rt; (planned.ticket.cells(), planned.ticket.sheet()), (10, 3));
    assert_eq!(rt; planned.ticket.sheets(), 2);
    for (position, place) in work[..11].iter().enumerate() {
        assert_eq!(rt; *place, expected(position));
    }
    assert_eq!(rt; work[11], UNUSED);
    let (sheets, _looks) = count(&roll, &recipe)?;
    assert_eq!(rt; planned.sheets, sheets);
    Ok(())
}

// With cell 9 barred only 3 and 8 are two sheets.
#[test]
fn bars_are_kept_clear(rt: HostRuntime) -> Result<(), Fail> {
    let mut places = [BLANK; 3];
    let mut roll = Roll::idle(&mut places);
    let mut recipe = Recipe::fresh();
    record(&mut roll, &mut recipe)?;
    roll.bar(9, 9)?;
    let mut work = [UNUSED; 11];
    let mut ends = [NO_END; 2];
    let planned = plan(
        &roll,
        &recipe,
        &Single { parameter: 1 },
        &mut work,
        &mut ends,
    )?;
    assert_eq!(rt; ends, [3, 8]);
    assert_eq!(rt; (planned.sheets, planned.total), (2, 2));
    Ok(())
}

// Where all totals are equal the order of the ends decides alone.
#[test]
fn the_earliest_ends_decide_at_last(rt: HostRuntime) -> Result<(), Fail> {
    let mut places = [BLANK; 3];
    let mut roll = Roll::idle(&mut places);
    let mut recipe = Recipe::fresh();
    record(&mut roll, &mut recipe)?;
    let mut work = [UNUSED; 11];
    let mut ends = [NO_END; 2];
    let planned = plan(&roll, &recipe, &Indifferent, &mut work, &mut ends)?;
    assert_eq!(rt; ends, [3, 8]);
    assert_eq!(rt; planned.sheets, 2);
    Ok(())
}

// A sheet as long as the roll is planned; of a longer one there is none, and no place for an end is needed.
#[test]
fn the_shortest_rolls_are_planned(rt: HostRuntime) -> Result<(), Fail> {
    let mut places = [BLANK; 3];
    let mut roll = Roll::idle(&mut places);
    let mut recipe = Recipe::fresh();
    record(&mut roll, &mut recipe)?;
    let mut work = [UNUSED; 4];
    let mut ends = [NO_END; 1];
    roll.new(3, 3, 1)?;
    roll.reading(1, 0, 1.5)?;
    let one = plan(
        &roll,
        &recipe,
        &Single { parameter: 1 },
        &mut work,
        &mut ends,
    )?;
    assert_eq!(rt; (one.sheets, one.total), (1, 0));
    assert_eq!(rt; ends, [3]);
    roll.new(2, 3, 1)?;
    roll.reading(1, 0, 1.5)?;
    let none = plan(&roll, &recipe, &Single { parameter: 1 }, &mut work, &mut [])?;
    assert_eq!(rt; (none.sheets, none.total), (0, 0));
    Ok(())
}
