// Counts the largest roll and one of half its cells and readings. Prints the answers; with the argument `times` it
// prints microseconds too.
#![tactic(auto)]

use recipe::Recipe;
use roll::Roll;
use sheets::count;
use shows::Program;
use shows::largest::{asks_for_times, show_largest_for};
use std::time::Instant;

#[derive(Drop)]
struct Counts<'a> {
    rt: &'a HostRuntime,
    times: bool,
}

impl Counts<'_> {
    // The time is taken here and in `plan_speed` alike: a shared function would take the call, and ask that it may be made.
    fn show(&self, name: &str, roll: &Roll, recipe: &Recipe) -> anyhow::Result<()> {
        let rt = self.rt;
        let cells = roll.size().cells;
        let readings = roll.readings().len();
        let start = Instant::now(rt)?;
        let answer = count(roll, recipe);
        let micros = start.elapsed(rt)?.as_micros();
        let (sheets, looks) = answer?;
        print!(rt; "{name} cells {cells} readings {readings} sheets {sheets} looks {looks}")?;
        if self.times {
            print!(rt; " microseconds {micros}")?;
        }
        println!(rt; "")?;
        Ok(())
    }
}

impl Program for Counts<'_> {
    type Error = anyhow::Error;

    fn recorded(&self, roll: &Roll, recipe: &Recipe) -> anyhow::Result<()> {
        self.show("open", roll, recipe)
    }

    fn barred(&self, roll: &Roll, recipe: &Recipe) -> anyhow::Result<()> {
        self.show("barred", roll, recipe)
    }
}

fn main(rt: HostRuntime) -> anyhow::Result<()> {
    let times = asks_for_times(&rt)?;
    show_largest_for(&rt, &Counts { rt: &rt, times })
}
