// The sample roll from its first call to its last: ten cells, sheets of three, one parameter.
use crate::{BLANK, number};
use model::refusal::Refusal;
use model::verdict::Verdict;
use recipe::Recipe;
use roll::Roll;
use sheets::{count, sheet, verdict};
use std::test::Fail;

fn record(roll: &mut Roll, recipe: &mut Recipe) -> Result<(), Refusal> {
    roll.new(10, 3, 1)?;
    recipe.limits(1, 1.0, 2.0, 400)?;
    roll.reading(1, 0, 1.5)?;
    roll.reading(1, 4, 3.0)?;
    roll.reading(1, 7, 1.5)
}

fn outlier(roll: &Roll, recipe: &Recipe, cell: u32) -> bool {
    verdict(roll, recipe, 1, cell) == Some(Verdict::Outlier)
}

// The outlier count in parameter 1 of a good sheet.
fn good_count(roll: &Roll, recipe: &Recipe, end: u32) -> Option<u16> {
    sheet(roll, recipe, end)
        .filter(|found| found.good)
        .map(|found| found.counts[0])
}

// The cells 3 to 6 are outliers; cell 6 is as near to the reading at 4 as to that at 7, and the earlier serves.
#[test]
fn cells_are_judged(rt: HostRuntime) -> Result<(), Fail> {
    let mut places = [BLANK; 3];
    let mut roll = Roll::idle(&mut places);
    let mut recipe = Recipe::fresh();
    record(&mut roll, &mut recipe)?;
    for cell in 1..11 {
        assert_eq!(rt; outlier(&roll, &recipe, cell), (3..=6).contains(&cell));
    }
    let Some(serves) = roll.serving(1, 6) else {
        return Err(Fail::new("a reading serves cell 6"));
    };
    assert_eq!(rt; serves.position, 4);
    Ok(())
}

#[test]
fn sheets_are_judged(rt: HostRuntime) -> Result<(), Fail> {
    let mut places = [BLANK; 3];
    let mut roll = Roll::idle(&mut places);
    let mut recipe = Recipe::fresh();
    record(&mut roll, &mut recipe)?;
    for end in 0..12 {
        let expected = match end {
            3 | 8 => Some(1),
            9 | 10 => Some(0),
            _ => None,
        };
        assert_eq!(rt; good_count(&roll, &recipe, end), expected);
    }
    assert!(rt; sheet(&roll, &recipe, 2).is_none() && sheet(&roll, &recipe, 11).is_none());
    assert_eq!(rt; count(&roll, &recipe)?, (2, 3));
    Ok(())
}

// With cell 9 barred the ends 9 and 10 are lost, and without the last reading all but the first.
#[test]
fn bars_and_withdrawals_count(rt: HostRuntime) -> Result<(), Fail> {
    let mut places = [BLANK; 3];
    let mut roll = Roll::idle(&mut places);
    let mut recipe = Recipe::fresh();
    record(&mut roll, &mut recipe)?;
    assert_eq!(rt; number(roll.bar(9, 9)), 0);
    for (end, outliers) in [(8, Some(1)), (9, None), (10, None)] {
        assert_eq!(rt; good_count(&roll, &recipe, end), outliers);
    }
    assert_eq!(rt; count(&roll, &recipe)?, (2, 3));
    assert_eq!(rt; number(roll.withdraw(1)), 0);
    assert_eq!(rt; count(&roll, &recipe)?, (1, 4));
    Ok(())
}

// A sheet as long as the roll counts once; a longer one is never looked at.
#[test]
fn the_shortest_rolls_count(rt: HostRuntime) -> Result<(), Fail> {
    let mut places = [BLANK; 3];
    let mut roll = Roll::idle(&mut places);
    let mut recipe = Recipe::fresh();
    record(&mut roll, &mut recipe)?;
    for (cells, answer) in [(3, (1, 1)), (2, (0, 0))] {
        roll.new(cells, 3, 1)?;
        roll.reading(1, 0, 1.5)?;
        assert_eq!(rt; count(&roll, &recipe)?, answer);
    }
    Ok(())
}

// A share of 50 thousandths allows one outlier of 20 cells, not of 19, and neither does a share of 52.
fn one_outlier(sheet_length: u32, share: u32) -> Result<bool, Refusal> {
    let mut places = [BLANK; 2];
    let mut roll = Roll::idle(&mut places);
    let mut recipe = Recipe::fresh();
    roll.new(sheet_length, sheet_length, 1)?;
    recipe.limits(1, 1.0, 2.0, share)?;
    roll.reading(1, 0, 3.0)?;
    roll.reading(1, 2, 1.5)?;
    Ok(good_count(&roll, &recipe, sheet_length) == Some(1))
}

#[test]
fn shares_are_exact(rt: HostRuntime) -> Result<(), Fail> {
    for (cells, share, good) in [
        (20, 50, true),
        (19, 50, false),
        (19, 52, false),
        (19, 53, true),
    ] {
        assert_eq!(rt; one_outlier(cells, share)?, good);
    }
    Ok(())
}
