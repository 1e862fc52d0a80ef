// A script of calls, line by line.
use crate::named::{FromName, Named};
use crate::words::Words;
use calls::call::{Call, Recording, Step};
use std::alloc::{AllocError, AllocFailed, Global};

// What the roll is set to, as the script has it.
#[derive(Clone, Copy)]
pub(crate) struct Sizes {
    pub(crate) cells: u32,
    pub(crate) sheet: u32,
    pub(crate) parameters: u32,
}

#[derive(Drop)]
pub(crate) struct Script {
    pub(crate) places: usize,
    pub(crate) new: Sizes,
    pub(crate) steps: Vec<Step<Named>>,
}

// The first line that is off, or want of memory.
#[derive(Drop)]
pub(crate) enum Trouble {
    Off { line: usize, message: &'static str },
    OutOfMemory,
}

impl From<AllocError> for Trouble {
    fn from(_e: AllocError) -> Trouble {
        Trouble::OutOfMemory
    }
}

impl<T: Drop> From<AllocFailed<T>> for Trouble {
    fn from(_e: AllocFailed<T>) -> Trouble {
        Trouble::OutOfMemory
    }
}

// A line behind the first two.
#[derive(Drop)]
enum Item {
    Make(Call<Named>),
    Trial,
    End,
}

fn reading(words: &mut Words) -> Option<Item> {
    let parameter = words.number()?;
    let position = words.number()?;
    let value = words.real()?;
    words.end()?;
    Some(Item::Make(Call::Record(Recording::Reading {
        parameter,
        position,
        value,
    })))
}

fn withdraw(words: &mut Words) -> Option<Item> {
    let parameter = words.number()?;
    words.end()?;
    Some(Item::Make(Call::Record(Recording::Withdraw { parameter })))
}

fn bar(words: &mut Words) -> Option<Item> {
    let from = words.number()?;
    let to = words.number()?;
    words.end()?;
    Some(Item::Make(Call::Record(Recording::Bar { from, to })))
}

fn limits(words: &mut Words) -> Option<Item> {
    let parameter = words.number()?;
    let low = words.real()?;
    let high = words.real()?;
    let share = words.number()?;
    words.end()?;
    Some(Item::Make(Call::Limits {
        parameter,
        low,
        high,
        share,
    }))
}

fn plan(words: &mut Words) -> Option<Item> {
    let work = words.size()?;
    let ends = words.size()?;
    let criterion = Named::from_name(words)?;
    words.end()?;
    Some(Item::Make(Call::Plan {
        criterion,
        work,
        ends,
    }))
}

fn alone(words: &mut Words, item: Item) -> Option<Item> {
    words.end()?;
    Some(item)
}

// The item of a line, or what is wrong with it. Words are read into data, and what they mean is done when all are read.
fn item_of(words: &mut Words) -> Result<Item, &'static str> {
    match words.word().unwrap_or("") {
        "reading" => reading(words).ok_or("expected reading PARAMETER POSITION VALUE"),
        "withdraw" => withdraw(words).ok_or("expected withdraw PARAMETER"),
        "bar" => bar(words).ok_or("expected bar FROM TO"),
        "limits" => limits(words).ok_or("expected limits PARAMETER LOW HIGH SHARE"),
        "count" => alone(words, Item::Make(Call::Count)).ok_or("expected count"),
        "plan" => plan(words).ok_or("expected plan WORK ENDS CRITERION"),
        "trial" => alone(words, Item::Trial).ok_or("expected trial"),
        "end" => alone(words, Item::End).ok_or("expected end"),
        _ => Err("no such call"),
    }
}

const PLACES: &str = "expected places N";

const NEW: &str = "expected new CELLS SHEET PARAMETERS";

fn places(words: &mut Words) -> Option<usize> {
    if words.word()? != "places" {
        return None;
    }
    let places = words.size()?;
    words.end()?;
    Some(places)
}

fn new(words: &mut Words) -> Option<Sizes> {
    if words.word()? != "new" {
        return None;
    }
    let cells = words.number()?;
    let sheet = words.number()?;
    let parameters = words.number()?;
    words.end()?;
    Some(Sizes {
        cells,
        sheet,
        parameters,
    })
}

// What the lines up to `line` have said; the calls of the trial that stands, if one does.
#[derive(Drop)]
struct Lines {
    heap: Global,
    line: usize,
    places: Option<usize>,
    new: Option<Sizes>,
    steps: Vec<Step<Named>>,
    trial: Option<Vec<Call<Named>>>,
}

impl Lines {
    fn off(&self, message: &'static str) -> Trouble {
        Trouble::Off {
            line: self.line,
            message,
        }
    }

    fn add(&mut self, words: &mut Words) -> Result<(), Trouble> {
        if self.places.is_none() {
            self.places = Some(places(words).ok_or(self.off(PLACES))?);
        } else if self.new.is_none() {
            self.new = Some(new(words).ok_or(self.off(NEW))?);
        } else {
            let item = item_of(words).map_err(|message| self.off(message))?;
            self.add_item(item)?;
        }
        Ok(())
    }

    fn add_item(&mut self, item: Item) -> Result<(), Trouble> {
        match item {
            Item::Make(call) => match &mut self.trial {
                Some(calls) => calls.push(call)?,
                None => self.steps.push(Step::Call(call))?,
            },
            Item::Trial => {
                if self.trial.is_some() {
                    return Err(self.off("a trial stands"));
                }
                self.trial = Some(Vec::new(self.heap));
            }
            Item::End => {
                let Some(calls) = self.trial.take() else {
                    return Err(self.off("no trial stands"));
                };
                self.steps.push(Step::Trial(calls))?;
            }
        }
        Ok(())
    }

    // The script, where its lines are all of it.
    fn script(self) -> Result<Script, Trouble> {
        if self.trial.is_some() {
            return Err(self.off("expected end"));
        }
        let missing_places = self.off(PLACES);
        let missing_new = self.off(NEW);
        Ok(Script {
            places: self.places.ok_or(missing_places)?,
            new: self.new.ok_or(missing_new)?,
            steps: self.steps,
        })
    }
}

// Reads a whole script.
pub(crate) fn read(heap: Global, text: &str) -> Result<Script, Trouble> {
    let mut lines = Lines {
        heap,
        line: 0,
        places: None,
        new: None,
        steps: Vec::new(heap),
        trial: None,
    };
    for (line, row) in (1..).zip(text.lines()) {
        lines.line = line;
        let mut words = Words::of(row);
        match words.peek() {
            Some(word) if !word.starts_with('#') => lines.add(&mut words)?,
            _ => {}
        }
    }
    lines.line = lines.line.saturating_add(1);
    lines.script()
}
