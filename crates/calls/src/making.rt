// Making one call.
ghost use Rattle.std.specs.Prelude.{◌≡◌, ℕ, length, IfOk, OnOk};
ghost use Rattle.calls.specs.Answers.{Answers, By, Counts, Plans, recording_checks};
ghost use Rattle.calls.specs.Events.{after_call, recorded};
ghost use Rattle.model.specs.Counting.{count_checks};
ghost use Rattle.model.specs.Refusals.{decide, decision};
ghost use Rattle.recipe.specs.Tables.{aside_log};
ghost use Rattle.roll.specs.Rolls.{roll_log};
ghost use Rattle.sheets.specs.Logs.{log_of};

use crate::answer::{Answer, Reply};
use crate::call::{Call, Recording};
use choices::work::{WorkPlace, table};
use criteria::criterion::Criterion;
use model::refusal::Refusal;
use planner::plan;
use recipe::{Alter, Recipe, Trial};
use roll::Roll;
use sheets::count;
use std::alloc::{AllocError, Global};

// By its case, as `make`.
fn record(roll: &mut Roll, recording: Recording) -> Result<(), Refusal>
    ensures answer { decision result ≡ decide (recording_checks (roll_log roll.old) recording) }
    ensures after { roll_log roll.new ≡ recorded (roll_log roll.old) recording }
{
    match recording {
        Recording::Reading {
            parameter,
            position,
            value,
        } => roll.reading(parameter, position, value),
        Recording::Withdraw { parameter } => roll.withdraw(parameter),
        Recording::Bar { from, to } => roll.bar(from, to),
    }
}

// Plans with this table and these places for ends; the places that are not used are left out of the answer.
fn planned<C: Criterion>(
    roll: &Roll,
    recipe: &Recipe,
    criterion: &C,
    work: &mut [WorkPlace<C::Total>],
    mut ends: Vec<u32>,
) -> Reply<C::Total>
    ensures { Plans (log_of roll.now recipe.now) (C.rules criterion.now) (length work.old) (length ends.items) result }
{
    let plan = plan(roll, recipe, criterion, work, &mut ends)?;
    ends.truncate(plan.sheets as usize);
    Ok(Answer::Planned { plan, ends })
}

// Makes a call of the recipe itself, or of a trial on it. Calls are data, read from text and kept: whatever made
// a closure of each would be this `match` again.
pub(crate) fn make<R: Alter, C: Criterion>(
    heap: Global,
    roll: &mut Roll,
    recipe: &mut R,
    call: &Call<C>,
) -> Result<Reply<C::Total>, AllocError>
    ensures answer { IfOk result (λ r. Answers C.rules (log_of roll.old (R.recipe recipe.old)) call.now r) }
    ensures after { OnOk result (log_of roll.new (R.recipe recipe.new) ≡ after_call (log_of roll.old (R.recipe recipe.old)) call.now) }
    ensures laid { aside_log (R.recipe recipe.new) ≡ aside_log (R.recipe recipe.old) }
    ensures kept { R.keeps recipe.old recipe.new }
{
    match call {
        Call::Record(recording) => Ok(record(roll, *recording).map(|_| Answer::Accepted)),
        Call::Limits {
            parameter,
            low,
            high,
            share,
        } => Ok(
            recipe
                .limits(*parameter, *low, *high, *share)
                .map(|_| Answer::Accepted),
        ),
        Call::Count => Ok(count(roll, recipe.recipe()).map(|(sheets, looks)| Answer::Counted {
            sheets,
            looks,
        })),
        Call::Plan {
            criterion,
            work,
            ends,
        } => {
            let mut table = table(heap, criterion.none(), *work)?;
            let places = vec![in heap; 0; *ends]?;
            Ok(planned(roll, recipe.recipe(), criterion, &mut table, places))
        }
    }
}

// Makes a call while a trial stands, as of the recipe itself. Apart from the loop over the calls, so that a call that goes
// wrong in trials alone shows in this contract.
pub(crate) fn make_in_trial<C: Criterion>(
    heap: Global,
    roll: &mut Roll,
    trial: &mut Trial,
    call: &Call<C>,
) -> Result<Reply<C::Total>, AllocError>
    ensures answer { IfOk result (λ r. Answers C.rules (log_of roll.old trial.old.recipe.now) call.now r) }
    ensures after { OnOk result (log_of roll.new trial.new.recipe.now ≡ after_call (log_of roll.old trial.old.recipe.now) call.now) }
    ensures laid { aside_log trial.new.recipe.now ≡ aside_log trial.old.recipe.now }
    ensures lent { trial.new.recipe.ghost_name ≡ trial.old.recipe.ghost_name }
{
    make(heap, roll, trial, call)
}
