// Limits at their edges, and the reals that are compared with them.
use crate::{BLANK, number};
use model::refusal::Refusal;
use model::row::Row;
use model::verdict::Verdict;
use recipe::{Limits, Recipe};
use roll::Roll;
use sheets::{count, verdict};
use std::test::Fail;

// Calls with their refusals, 0 for an accepted call.
#[test]
fn limits_are_bounded(rt: HostRuntime) {
    let cases = [
        (0, 2.0, 1.0, 1001, 11),
        (9, 1.0, 2.0, 0, 11),
        (8, 1.0, 1.0, 1000, 0),
        (8, 2.0, 1.0, 1001, 12),
        (8, f32::NAN, 1.0, 0, 12),
        (8, 1.0, f32::INFINITY, 0, 12),
        (8, f32::NEG_INFINITY, 1.0, 0, 12),
        (8, 0.0, -0.0, 1001, 13),
        (8, 0.0, -0.0, 0, 0),
    ];
    let mut recipe = Recipe::fresh();
    for (parameter, low, high, share, refusal) in cases {
        assert_eq!(rt; number(recipe.limits(parameter, low, high, share)), refusal);
    }
    for (parameter, some) in [(8, true), (7, false), (0, false), (9, false)] {
        assert_eq!(rt; recipe.entry(parameter).is_some(), some);
    }
}

// A row that fails the check gives no limits.
#[test]
fn rows_are_checked(rt: HostRuntime) {
    let cases = [
        (1.0, 2.0, 1000, true),
        (2.0, 1.0, 0, false),
        (1.0, 2.0, 1001, false),
        (f32::NAN, f32::NAN, 0, false),
    ];
    for (low, high, share, some) in cases {
        assert_eq!(rt; Limits::try_from(Row { low, high, share }).is_ok(), some);
    }
}

// The verdict on a roll of one cell whose one reading has this value.
fn judge(low: f32, high: f32, value: f32) -> Result<Option<Verdict>, Refusal> {
    let mut places = [BLANK; 1];
    let mut roll = Roll::idle(&mut places);
    let mut recipe = Recipe::fresh();
    recipe.limits(1, low, high, 0)?;
    roll.reading(1, 0, value)?;
    Ok(verdict(&roll, &recipe, 1, 1))
}

// Limits, a value, and whether it is within.
#[test]
fn reals_are_compared_exactly(rt: HostRuntime) -> Result<(), Fail> {
    let cases = [
        (1.0, 2.0, 1.0, true),
        (1.0, 2.0, 2.0, true),
        (1.0, 2.0, 2.0000002, false),
        (1.0, 2.0, 0.99999994, false),
        (1.0, 2.0, f32::NAN, false),
        (1.0, 2.0, f32::INFINITY, false),
        (1.0, 2.0, f32::NEG_INFINITY, false),
        (0.0, 0.0, -0.0, true),
        (-0.0, -0.0, 0.0, true),
        (1.5, 1.5, 1.5, true),
    ];
    for (low, high, value, within) in cases {
        assert_eq!(rt; judge(low, high, value)? == Some(Verdict::Within), within);
    }
    Ok(())
}

// No verdict without the cell, the parameter or its limits; a parameter without a reading makes outliers.
#[test]
fn verdicts_have_their_bounds(rt: HostRuntime) -> Result<(), Fail> {
    let mut places = [BLANK; 1];
    let mut roll = Roll::idle(&mut places);
    let mut recipe = Recipe::fresh();
    assert_eq!(rt; number(roll.new(10, 3, 2)), 0);
    assert!(rt; verdict(&roll, &recipe, 1, 1).is_none());
    assert_eq!(rt; number(recipe.limits(1, 1.0, 2.0, 0)), 0);
    assert_eq!(rt; number(recipe.limits(3, 1.0, 2.0, 0)), 0);
    assert_eq!(rt; verdict(&roll, &recipe, 1, 10), Some(Verdict::Outlier));
    assert!(rt;
        verdict(&roll, &recipe, 1, 0).is_none() && verdict(&roll, &recipe, 1, 11).is_none()
    );
    assert!(rt; verdict(&roll, &recipe, 0, 1).is_none() && verdict(&roll, &recipe, 3, 1).is_none());
    match count(&roll, &recipe) {
        Err(Refusal::WithoutLimits { parameter }) => {
            assert_eq!(rt; parameter, 2);
            Ok(())
        },
        _ => Err(Fail::new("parameter 2 has no limits")),
    }
}
