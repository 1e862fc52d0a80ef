// What the programs share: a walk through one job, and the largest rolls. Each program shows more of them by
// `Program`; `Shows` is the same for what ends with any error.
#![tactic(auto)]

pub mod largest;
pub mod walk;

use recipe::Recipe;
use roll::Roll;
use std::io;

// What a program shows of a roll and a recipe: as they were recorded, and then with cells barred.
pub trait Shows {
    fn recorded(&self, roll: &Roll, recipe: &Recipe) -> anyhow::Result<()>;

    fn barred(&self, roll: &Roll, recipe: &Recipe) -> anyhow::Result<()>;
}

// Nothing more.
impl Shows for () {
    fn recorded(&self, _roll: &Roll, _recipe: &Recipe) -> anyhow::Result<()> {
        Ok(())
    }

    fn barred(&self, _roll: &Roll, _recipe: &Recipe) -> anyhow::Result<()> {
        Ok(())
    }
}

// The same of a program that ends with an error of a type of its own.
pub trait Program {
    // What the program ends with where this fails, and prints as that type does.
    type Error: Drop;

    fn recorded(&self, roll: &Roll, recipe: &Recipe) -> Result<(), Self::Error>;

    fn barred(&self, roll: &Roll, recipe: &Recipe) -> Result<(), Self::Error>;
}

// Nothing more.
impl Program for () {
    type Error = io::Error;

    fn recorded(&self, _roll: &Roll, _recipe: &Recipe) -> io::Result<()> {
        Ok(())
    }

    fn barred(&self, _roll: &Roll, _recipe: &Recipe) -> io::Result<()> {
        Ok(())
    }
}

// What shows and ends with any error, as a program.
#[derive(Drop)]
pub(crate) struct AsProgram<'a, S> {
    pub(crate) shows: &'a S,
}

impl<S: Shows> Program for AsProgram<'_, S> {
    type Error = anyhow::Error;

    fn recorded(&self, roll: &Roll, recipe: &Recipe) -> anyhow::Result<()> {
        self.shows.recorded(roll, recipe)
    }

    fn barred(&self, roll: &Roll, recipe: &Recipe) -> anyhow::Result<()> {
        self.shows.barred(roll, recipe)
    }
}
