// A walk through one job: the sample roll is recorded, its cells and sheets are judged and counted, and some calls are
// refused.
use crate::{AsProgram, Program, Shows};
use criteria::criterion::Criterion;
use criteria::ladder::Ladder;
use criteria::ranked::Ranked;
use criteria::single::Single;
use criteria::tally::Tally;
use model::reading::BLANK;
use model::refusal::Refusal;
use model::row::Row;
use recipe::Recipe;
use roll::Roll;
use sheets::judged::Sheet;
use sheets::{count, sheet, verdict};
use std::fmt::Debug;
use std::io;

// One line for the answer of a recording call.
fn tell(rt: &HostRuntime, call: &str, answer: Result<(), Refusal>) -> io::Result<()> {
    match answer {
        Ok(()) => println!(rt; "{call}: accepted"),
        Err(refusal) => println!(rt; "{call}: refused, {refusal}"),
    }
}

// A job under way, and what it is told by.
#[derive(Drop)]
struct Job<'a, 'b> {
    rt: &'a HostRuntime,
    roll: Roll<'b>,
    recipe: Recipe,
}

impl Job<'_, '_> {
    // The sample roll: ten cells, sheets of three, one parameter with limits 1.0 to 2.0 and a share of 400 thousandths.
    fn record(&mut self) -> io::Result<()> {
        let rt = self.rt;
        tell(rt, "new 10 3 1", self.roll.new(10, 3, 1))?;
        tell(
            rt,
            "limits 1 1.0 2.0 400",
            self.recipe.limits(1, 1.0, 2.0, 400),
        )?;
        tell(rt, "reading 1 0 1.5", self.roll.reading(1, 0, 1.5))?;
        tell(rt, "reading 1 4 3.0", self.roll.reading(1, 4, 3.0))?;
        tell(rt, "reading 1 7 1.5", self.roll.reading(1, 7, 1.5))
    }

    fn show_readings(&self) -> io::Result<()> {
        let rt = self.rt;
        rt.println("parameter position value")?;
        for reading in self.roll.readings() {
            println!(rt;
                "{} {} {:.1}",
                reading.parameter, reading.position, reading.value
            )?;
        }
        Ok(())
    }

    fn show_limits(&self) -> io::Result<()> {
        let rt = self.rt;
        rt.println("parameter low high share")?;
        for parameter in 1..=8 {
            if let Some(limits) = self.recipe.entry(parameter) {
                let row = Row::from(limits);
                println!(rt; "{parameter} {:.1} {:.1} {}", row.low, row.high, row.share)?;
            }
        }
        Ok(())
    }

    fn show_bars(&self) -> io::Result<()> {
        let rt = self.rt;
        rt.println("from to")?;
        for bar in self.roll.bars() {
            println!(rt; "{} {}", bar.from, bar.to)?;
        }
        Ok(())
    }

    // Each cell with the position of the reading that serves it.
    fn show_cells(&self) -> io::Result<()> {
        let rt = self.rt;
        rt.println("cell position verdict")?;
        for cell in 1..=10 {
            if let (Some(reading), Some(verdict)) = (
                self.roll.serving(1, cell),
                verdict(&self.roll, &self.recipe, 1, cell),
            ) {
                println!(rt; "{cell} {} {verdict}", reading.position)?;
            }
        }
        Ok(())
    }

    fn good_sheet(&self, end: u32) -> Option<Sheet> {
        sheet(&self.roll, &self.recipe, end).filter(|found| found.good)
    }

    fn show_good_ends(&self) -> io::Result<()> {
        let rt = self.rt;
        rt.println("good-end outliers")?;
        for end in 0..=10 {
            if let Some(found) = self.good_sheet(end) {
                println!(rt; "{end} {}", found.counts[0])?;
            }
        }
        Ok(())
    }

    // The mark of each good sheet under a criterion, with the total up to it.
    fn show_marks<C: Criterion>(&self, name: &str, criterion: &C) -> io::Result<()>
    where
        C::Mark: Debug,
        C::Total: Debug,
    {
        let rt = self.rt;
        println!(rt; "{name}: good-end mark total")?;
        let mut total = criterion.none();
        for end in 0..=10 {
            if let Some(found) = self.good_sheet(end) {
                let mark = criterion.mark(self.roll.size().sheet, &found.counts);
                total = criterion.add(total, mark);
                // in two writes: of a pipe that is nearly full the first may be taken alone
                print!(rt; "{end} {mark:?}")?;
                println!(rt; " {total:?}")?;
            }
        }
        let order = criterion.compare(total, criterion.none());
        println!(rt; "all of them against none: {order:?}")
    }

    fn show_criteria(&self) -> io::Result<()> {
        let both = Ranked {
            first: Tally,
            second: Ladder,
        };
        self.show_marks("single of 1", &Single { parameter: 1 })?;
        self.show_marks("ladder", &Ladder)?;
        self.show_marks("tally", &Tally)?;
        self.show_marks("ranked tally ladder", &both)
    }

    fn show_count(&self) -> io::Result<()> {
        let rt = self.rt;
        match count(&self.roll, &self.recipe) {
            Ok((sheets, looks)) => println!(rt; "count: sheets {sheets}, looks {looks}"),
            Err(refusal) => println!(rt; "count: refused, {refusal}"),
        }
    }

    // Calls that the rules refuse: each leaves roll and recipe as they were.
    fn try_bad_calls(&mut self) -> io::Result<()> {
        let rt = self.rt;
        tell(rt, "new 10 3 9", self.roll.new(10, 3, 9))?;
        tell(rt, "reading 2 8 1.5", self.roll.reading(2, 8, 1.5))?;
        tell(rt, "reading 1 11 1.5", self.roll.reading(1, 11, 1.5))?;
        tell(rt, "reading 1 7 1.5", self.roll.reading(1, 7, 1.5))?;
        tell(rt, "reading 1 8 1.5", self.roll.reading(1, 8, 1.5))?;
        tell(rt, "bar 0 3", self.roll.bar(0, 3))?;
        tell(
            rt,
            "limits 1 2.0 1.0 400",
            self.recipe.limits(1, 2.0, 1.0, 400),
        )?;
        tell(
            rt,
            "limits 1 1.0 2.0 1001",
            self.recipe.limits(1, 1.0, 2.0, 1001),
        )
    }
}

// The walk over places of its own; a program shows more of the sample, and of it with cell 9 barred.
pub fn walk_for<S: Program>(rt: &HostRuntime, more: &S) -> Result<(), S::Error>
where
    S::Error: From<io::Error>,
{
    let mut places = [BLANK; 3];
    let mut job = Job {
        rt,
        roll: Roll::idle(&mut places),
        recipe: Recipe::fresh(),
    };
    job.record()?;
    job.show_limits()?;
    job.show_readings()?;
    job.show_cells()?;
    job.show_good_ends()?;
    job.show_count()?;
    job.show_criteria()?;
    more.recorded(&job.roll, &job.recipe)?;
    job.try_bad_calls()?;
    job.show_count()?;
    tell(rt, "bar 9 9", job.roll.bar(9, 9))?;
    job.show_bars()?;
    job.show_good_ends()?;
    job.show_count()?;
    more.barred(&job.roll, &job.recipe)?;
    tell(rt, "withdraw 1", job.roll.withdraw(1))?;
    job.show_readings()?;
    job.show_good_ends()?;
    job.show_count()?;
    tell(rt, "new 10 3 2", job.roll.new(10, 3, 2))?;
    tell(rt, "withdraw 1", job.roll.withdraw(1))?;
    job.show_count()?;
    Ok(())
}

// The same walk, for what ends with any error.
pub fn walk(rt: &HostRuntime, more: &impl Shows) -> anyhow::Result<()> {
    walk_for(rt, &AsProgram { shows: more })
}
