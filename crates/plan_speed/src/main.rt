// Counts and plans the largest roll and one of half its cells and readings. Prints the answers; with the argument
// `times` it prints microseconds too.
#![tactic(auto)]

use choices::work::table;
use criteria::criterion::Criterion;
use criteria::ladder::Ladder;
use criteria::ranked::Ranked;
use criteria::tally::Tally;
use planner::plan;
use recipe::Recipe;
use roll::Roll;
use sheets::count;
use shows::Program;
use shows::largest::{asks_for_times, show_largest_for};
use std::io;
use std::time::Instant;

// What a call answers, and the microseconds that it takes.
fn timed<T: Drop, F: FnOnce() -> T>(rt: &HostRuntime, call: F) -> io::Result<(T, u128)>
    requires { F.IsAlwaysCallable call }
{
    let start = Instant::now(rt)?;
    let answer = call();
    let micros = start.elapsed(rt)?.as_micros();
    Ok((answer, micros))
}

#[derive(Drop)]
struct Answers<'a> {
    rt: &'a HostRuntime,
    times: bool,
}

impl Answers<'_> {
    // Behind an answer its time, where times are asked for; then the end of the line.
    fn show_time(&self, micros: u128) -> anyhow::Result<()> {
        if self.times {
            print!(self.rt; " microseconds {micros}")?;
        }
        println!(self.rt; "")?;
        Ok(())
    }

    fn show_count(&self, name: &str, roll: &Roll, recipe: &Recipe) -> anyhow::Result<()> {
        let rt = self.rt;
        print!(rt; "count {name}")?;
        let (answer, micros) = timed(rt, || count(roll, recipe))?;
        let (sheets, looks) = answer?;
        print!(rt; " sheets {sheets} looks {looks}")?;
        self.show_time(micros)
    }

    // Plans by classes and then by parameters.
    fn show_plan(&self, name: &str, roll: &Roll, recipe: &Recipe) -> anyhow::Result<()> {
        let rt = self.rt;
        print!(rt; "plan {name}")?;
        let both = Ranked {
            first: Tally,
            second: Ladder,
        };
        let mut work = table(rt.alloc(), both.none(), 32769)?;
        let mut ends = vec![in rt.alloc(); 0; 8]?;
        let (answer, micros) = timed(rt, || plan(roll, recipe, &both, &mut work, &mut ends))?;
        print!(rt; " sheets {}", answer?.sheets)?;
        self.show_time(micros)
    }

    fn show(&self, name: &str, roll: &Roll, recipe: &Recipe) -> anyhow::Result<()> {
        self.show_count(name, roll, recipe)?;
        self.show_plan(name, roll, recipe)
    }
}

impl Program for Answers<'_> {
    type Error = anyhow::Error;

    fn recorded(&self, roll: &Roll, recipe: &Recipe) -> anyhow::Result<()> {
        let cells = roll.size().cells;
        println!(self.rt; "cells {cells} readings {}", roll.readings().len())?;
        self.show("open", roll, recipe)
    }

    fn barred(&self, roll: &Roll, recipe: &Recipe) -> anyhow::Result<()> {
        self.show("barred", roll, recipe)
    }
}

fn main(rt: HostRuntime) -> anyhow::Result<()> {
    let times = asks_for_times(&rt)?;
    show_largest_for(&rt, &Answers { rt: &rt, times })
}
