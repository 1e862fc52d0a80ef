// A roll with two parameters: three cells, sheets of two, share 500; parameter 1 is an outlier in cell 1 alone,
// parameter 2 in cell 3 alone.
use crate::{BLANK, number};
use model::refusal::Refusal;
use recipe::Recipe;
use roll::Roll;
use sheets::{count, sheet};
use std::test::Fail;

fn record(roll: &mut Roll) -> Result<(), Refusal> {
    roll.new(3, 2, 2)?;
    for (parameter, position, value) in [(1, 0, 3.0), (1, 2, 1.5), (2, 1, 1.5), (2, 3, 3.0)] {
        roll.reading(parameter, position, value)?;
    }
    Ok(())
}

#[test]
fn each_parameter_has_its_count(rt: HostRuntime) -> Result<(), Fail> {
    let mut places = [BLANK; 4];
    let mut roll = Roll::idle(&mut places);
    let mut recipe = Recipe::fresh();
    record(&mut roll)?;
    for parameter in [1, 2] {
        recipe.limits(parameter, 1.0, 2.0, 500)?;
    }
    for (end, first, second) in [(2, 1, 0), (3, 0, 1)] {
        let Some(found) = sheet(&roll, &recipe, end) else {
            return Err(Fail::new("a sheet ends there"));
        };
        assert!(rt; found.good);
        assert_eq!(rt; found.counts, [first, second, 0, 0, 0, 0, 0, 0]);
    }
    assert_eq!(rt; count(&roll, &recipe)?, (1, 1));
    Ok(())
}

// The smallest parameter without limits is told, and without all limits no sheet is judged. With a share of 499 in
// parameter 2 the sheet at 3 is lost, by an excess of 1.
#[test]
fn limits_are_asked_of_each(rt: HostRuntime) -> Result<(), Fail> {
    let mut places = [BLANK; 4];
    let mut roll = Roll::idle(&mut places);
    let mut recipe = Recipe::fresh();
    record(&mut roll)?;
    for (parameter, told) in [(3, 1), (1, 2)] {
        assert_eq!(rt; number(recipe.limits(parameter, 1.0, 2.0, 0)), 0);
        assert!(rt; sheet(&roll, &recipe, 2).is_none());
        assert_eq!(rt;
            count(&roll, &recipe),
            Err(Refusal::WithoutLimits { parameter: told })
        );
    }
    assert_eq!(rt; number(recipe.limits(2, 1.0, 2.0, 499)), 0);
    assert_eq!(rt; count(&roll, &recipe)?, (0, 2));
    Ok(())
}
