// Two parameters on three cells, sheets of two, share 500: the sheet at 2 has an outlier in parameter 1 alone, the
// sheet at 3 in parameter 2 alone.
use crate::{BLANK, NO_END};
use choices::work::table;
use criteria::criterion::Criterion;
use criteria::ladder::Ladder;
use criteria::ranked::Ranked;
use criteria::tally::Tally;
use model::refusal::Refusal;
use planner::plan;
use recipe::Recipe;
use roll::Roll;
use std::alloc::Global;
use std::test::Fail;

// As in the foundation's tests, for the reason that stands beside the sample.
fn record(roll: &mut Roll, recipe: &mut Recipe) -> Result<(), Refusal> {
    roll.new(3, 2, 2)?;
    for (parameter, position, value) in [(1, 0, 3.0), (1, 2, 1.5), (2, 1, 1.5), (2, 3, 3.0)] {
        roll.reading(parameter, position, value)?;
    }
    recipe.limits(1, 1.0, 2.0, 500)?;
    recipe.limits(2, 1.0, 2.0, 500)
}

// The one end that is planned.
fn end_by<C: Criterion>(heap: Global, criterion: &C) -> Result<u32, Fail> {
    let mut places = [BLANK; 4];
    let mut roll = Roll::idle(&mut places);
    let mut recipe = Recipe::fresh();
    record(&mut roll, &mut recipe)?;
    let mut work = table(heap, criterion.none(), 4)?;
    let mut ends = [NO_END; 1];
    plan(&roll, &recipe, criterion, &mut work, &mut ends)?;
    Ok(ends[0])
}

#[test]
fn the_criterion_decides(rt: HostRuntime) -> Result<(), Fail> {
    let both = Ranked {
        first: Tally,
        second: Ladder,
    };
    assert_eq!(rt; end_by(rt.alloc(), &Ladder)?, 3);
    assert_eq!(rt; end_by(rt.alloc(), &Tally)?, 2);
    assert_eq!(rt; end_by(rt.alloc(), &both)?, 3);
    Ok(())
}
