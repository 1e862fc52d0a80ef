// Walks through one job: records the sample roll, judges its cells and sheets, counts and plans them, and shows some refusals.
#![tactic(auto)]

use choices::examples::examples_hold;
use choices::work::{WorkPlace, table};
use criteria::criterion::Criterion;
use criteria::ladder::Ladder;
use criteria::ranked::Ranked;
use criteria::single::Single;
use criteria::tally::Tally;
use planner::{Ticket, plan};
use recipe::Recipe;
use roll::Roll;
use shows::Program;
use shows::walk::walk_for;
use std::fmt::Debug;
use std::io;

fn show_table<T: Debug + Copy>(rt: &HostRuntime, work: &[WorkPlace<T>]) -> io::Result<()> {
    rt.println("position sheets total last-end")?;
    for (position, place) in work.iter().enumerate() {
        println!(rt;
            "{position} {} {:?} {}",
            place.sheets, place.total, place.last
        )?;
    }
    Ok(())
}

fn show_ticket(rt: &HostRuntime, ticket: &Ticket) -> io::Result<()> {
    println!(rt;
        "ticket: cells {}, sheet {}, sheets {}",
        ticket.cells(),
        ticket.sheet(),
        ticket.sheets()
    )
}

// Plans under a criterion: the ends, the total, the ticket, and the work table.
fn show_plan<C: Criterion>(
    rt: &HostRuntime,
    name: &str,
    criterion: &C,
    roll: &Roll,
    recipe: &Recipe,
    ends: &mut [u32],
) -> anyhow::Result<()>
where
    C::Total: Debug,
{
    let mut work = table(rt.alloc(), criterion.none(), 11)?;
    match plan(roll, recipe, criterion, &mut work, ends) {
        Ok(planned) => {
            println!(rt;
                "plan by {name}: sheets {}, total {:?}",
                planned.sheets, planned.total
            )?;
            show_ticket(rt, &planned.ticket)?;
            rt.println("ends")?;
            for end in ends {
                println!(rt; "{end}")?;
            }
        }
        Err(refusal) => println!(rt; "plan: refused, {refusal}")?,
    }
    show_table(rt, &work)?;
    Ok(())
}

#[derive(Drop)]
struct Plans<'a> {
    rt: &'a HostRuntime,
}

impl Program for Plans<'_> {
    type Error = anyhow::Error;

    // The sample under each criterion, with one place for ends more than is needed, and then with one too few.
    fn recorded(&self, roll: &Roll, recipe: &Recipe) -> anyhow::Result<()> {
        let rt = self.rt;
        let single = Single { parameter: 1 };
        let both = Ranked {
            first: Tally,
            second: Ladder,
        };
        show_plan(rt, "single of 1", &single, roll, recipe, &mut [99; 3])?;
        show_plan(rt, "ladder", &Ladder, roll, recipe, &mut [99; 3])?;
        show_plan(rt, "tally", &Tally, roll, recipe, &mut [99; 3])?;
        show_plan(rt, "ranked tally ladder", &both, roll, recipe, &mut [99; 3])?;
        show_plan(
            rt,
            "single of 1 into one place",
            &single,
            roll,
            recipe,
            &mut [99; 1],
        )
    }

    fn barred(&self, roll: &Roll, recipe: &Recipe) -> anyhow::Result<()> {
        show_plan(self.rt, "ladder", &Ladder, roll, recipe, &mut [99; 2])
    }
}

fn main(rt: HostRuntime) -> anyhow::Result<()> {
    walk_for(&rt, &Plans { rt: &rt })?;
    println!(rt; "worked examples hold: {}", examples_hold())?;
    Ok(())
}
