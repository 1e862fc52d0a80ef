// The largest roll and one of half its cells and readings, as they were measured and with every end barred.
use crate::{AsProgram, Program, Shows};
use model::reading::BLANK;
use model::refusal::Refusal;
use recipe::Recipe;
use roll::Roll;
use std::{env, io};

// A reading of each of the eight parameters at every fourth position; one of nine is an outlier.
fn measure(roll: &mut Roll, cells: u32) -> Result<(), Refusal> {
    for k in 0..cells / 4 {
        for parameter in 1..=8 {
            let value = if (k + parameter) % 9 == 0 { 3.0 } else { 1.5 };
            roll.reading(parameter, 4 * k, value)?;
        }
    }
    Ok(())
}

// Bars every end: 63 bars on the first cell, and one on all cells.
fn bar_all(roll: &mut Roll, cells: u32) -> Result<(), Refusal> {
    for _ in 0..63 {
        roll.bar(1, 1)?;
    }
    roll.bar(1, cells)
}

fn same_limits() -> Result<Recipe, Refusal> {
    let mut recipe = Recipe::fresh();
    for parameter in 1..=8 {
        recipe.limits(parameter, 1.0, 2.0, 120)?;
    }
    Ok(recipe)
}

// Each roll in its turn, the smaller first.
pub fn show_largest_for(
    rt: &HostRuntime,
    shows: &impl Program<Error = anyhow::Error>,
) -> anyhow::Result<()> {
    for cells in [16384, 32768] {
        let mut places = vec![in rt.alloc(); BLANK; 65536]?;
        let mut roll = Roll::idle(&mut places);
        let recipe = same_limits()?;
        roll.new(cells, 4096, 8)?;
        measure(&mut roll, cells)?;
        shows.recorded(&roll, &recipe)?;
        bar_all(&mut roll, cells)?;
        shows.barred(&roll, &recipe)?;
    }
    Ok(())
}

// The same rolls, for what ends with any error.
pub fn show_largest(rt: &HostRuntime, shows: &impl Shows) -> anyhow::Result<()> {
    show_largest_for(rt, &AsProgram { shows })
}

// Whether the program's argument is `times`.
pub fn asks_for_times(rt: &HostRuntime) -> io::Result<bool> {
    Ok(env::args(rt)?.any(|arg| arg.as_str() == "times"))
}
