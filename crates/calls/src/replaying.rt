// Replaying a list of steps from the start.
ghost use Rattle.std.specs.Prelude.{◌≡◌, MatchResult, OnOk};
ghost use Rattle.calls.specs.Events.{events, events_of, trial_events};
ghost use Rattle.calls.specs.Replay.{Stopped, Whole};

use crate::answer::{Answer, Reply};
use crate::call::{Call, Step};
use crate::making::{make, make_in_trial};
use crate::unplayed::Unplayed;
use criteria::criterion::Criterion;
use model::reading::BLANK;
use recipe::Recipe;
use roll::Roll;
use std::alloc::{AllocError, Global};

// A job under way: the roll and the recipe as its calls so far have left them, and a reply for each.
#[derive(Drop)]
struct Job<'a, C: Criterion> {
    heap: Global,
    roll: Roll<'a>,
    recipe: Recipe,
    replies: Vec<Reply<C::Total>>,
}

impl<C: Criterion> Job<'_, C> {
    ghost use Rattle.calls.specs.Jobs.{Led};

    // By its case, as `make`.
    fn step(&mut self, step: &Step<C>) -> Result<(), AllocError>
        ensures { OnOk result (Led C.rules self.old self.new (events_of step.now)) }
    {
        match step {
            Step::Call(call) => {
                let reply = make(self.heap, &mut self.roll, &mut self.recipe, call)?;
                self.replies.push(reply)?;
                Ok(())
            }
            Step::Trial(calls) => self.trial(calls),
        }
    }

    // A trial with its calls: its beginning and its end are answered too.
    fn trial(&mut self, calls: &[Call<C>]) -> Result<(), AllocError>
        ensures { OnOk result (Led C.rules self.old self.new (trial_events calls.now)) }
    {
        // the trial holds the recipe alone
        let Job {
            heap,
            roll,
            recipe,
            replies,
        } = self;
        replies.push(Ok(Answer::Accepted))?;
        {
            let mut trial = recipe.trial();
            for call in calls {
                replies.push(make_in_trial(*heap, roll, &mut trial, call)?)?;
            }
        }
        replies.push(Ok(Answer::Accepted))?;
        Ok(())
    }
}

// Sets a roll over so many places, and makes the calls of the steps over a fresh recipe, one after the other. There is
// an answer for each call, and for the beginning and the end of each trial. The sizes are three numbers, as in the call
// that they are given to.
pub fn replay<C: Criterion>(
    heap: Global,
    places: usize,
    cells: u32,
    sheet: u32,
    parameters: u32,
    steps: &[Step<C>],
) -> Result<Vec<Reply<C::Total>>, Unplayed>
    ensures { MatchResult result (λ v. Whole C.rules places cells sheet parameters (events steps.now) v.items) (λ e. Stopped cells sheet parameters e) }
{
    let mut readings = vec![in heap; BLANK; places]?;
    let mut roll = Roll::idle(&mut readings);
    roll.new(cells, sheet, parameters)?;
    let mut job = Job {
        heap,
        roll,
        recipe: Recipe::fresh(),
        replies: Vec::new(heap),
    };
    for step in steps {
        job.step(step)?;
    }
    Ok(job.replies)
}
