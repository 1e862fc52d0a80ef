// The recording calls. Each tests what the rules list for it, in their order, and says for itself that a refusal leaves the
// roll as it was.
ghost use Rattle.std.specs.Prelude.{◌≡◌, ◌+◌, ◌≤◌, length, cond, Ok, Err, IfOk, IsTrue, OnErr};
ghost use Rattle.model.specs.Recording.{after_bar, after_new, after_reading, after_withdraw, bar_checks, idle, new_checks, reading_checks, withdraw_checks};
ghost use Rattle.model.specs.declared.refusal.Refusal.TheVariants.{NoSuchParameter};
ghost use Rattle.model.specs.Refusals.{decide, decision, outside};
ghost use Rattle.roll.specs.Lent.{Kept};
ghost use Rattle.roll.specs.Rolls.{roll_log};

use crate::bars::Bars;
use crate::held::Roll;
use crate::places::Places;
use crate::readings::{beyond, latest};
use model::bar::Bar;
use model::reading::Reading;
use model::refusal::Refusal;
use model::size::Size;

const MOST_CELLS: u32 = 32768;

const MOST_SHEET_CELLS: u32 = 4096;

const MOST_PARAMETERS: u32 = 8;

impl<'a> Roll<'a> {
    // An idle roll over the places: one cell, sheets of one cell, one parameter, no reading and no bar.
    pub fn idle(places: &'a mut [Reading]) -> Roll<'a>
        ensures value { roll_log result ≡ idle (length places.old) }
        ensures same { result.places.all.now ≡ places.old }
        ensures lent { result.places.all.ghost_name ≡ places.entry.ghost_name }
    {
        Roll {
            places: Places {
                all: places,
                used: 0,
            },
            size: Size {
                cells: 1,
                sheet: 1,
                parameters: 1,
            },
            bars: Bars::new(),
            next: [0; 8],
        }
    }

    // Sets the cells of the roll, the cells of a sheet and the number of parameters, and empties the roll.
    pub fn new(&mut self, cells: u32, sheet: u32, parameters: u32) -> Result<(), Refusal>
        ensures answer { decision result ≡ decide (new_checks cells sheet parameters) }
        ensures after { roll_log self.new ≡ after_new (roll_log self.old) cells sheet parameters }
        ensures kept { Kept self.old.places self.new.places }
        ensures same { OnErr result (self.new ≡ self.old) }
    {
        within(parameters, MOST_PARAMETERS, Refusal::ParametersOutOfRange)?;
        within(cells, MOST_CELLS, Refusal::CellsOutOfRange)?;
        within(sheet, MOST_SHEET_CELLS, Refusal::SheetOutOfRange)?;
        self.size = Size {
            cells: cells as u16,
            sheet: sheet as u16,
            parameters: parameters as u8,
        };
        self.places.clear();
        self.bars.clear();
        self.next = [0; 8];
        Ok(())
    }

    // Records a reading behind those that stand.
    pub fn reading(&mut self, parameter: u32, position: u32, value: f32) -> Result<(), Refusal>
        ensures answer { decision result ≡ decide (reading_checks (roll_log self.old) parameter position) }
        ensures after { roll_log self.new ≡ after_reading (roll_log self.old) parameter position value }
        ensures kept { Kept self.old.places self.new.places }
        ensures same { OnErr result (self.new ≡ self.old) }
    {
        let lane = self.lane(parameter)?;
        if position > self.size.cells as u32 {
            return Err(Refusal::PositionBeyondRoll);
        }
        if position < self.next[lane] as u32 {
            return Err(Refusal::PositionNotBeyondLast);
        }
        if self.places.is_full() {
            return Err(Refusal::NoFreePlace);
        }
        self.places.push(Reading {
            parameter: parameter as u8,
            position: position as u16,
            value,
        });
        self.next[lane] = position as u16 + 1;
        Ok(())
    }

    // Takes back the latest reading of the parameter; the others keep their order.
    #[tactic(auto, using(crate::proofs::Latest::latest_at))]
    pub fn withdraw(&mut self, parameter: u32) -> Result<(), Refusal>
        ensures answer { decision result ≡ decide (withdraw_checks (roll_log self.old) parameter) }
        ensures after { roll_log self.new ≡ after_withdraw (roll_log self.old) parameter }
        ensures kept { Kept self.old.places self.new.places }
        ensures same { OnErr result (self.new ≡ self.old) }
    {
        let lane = self.lane(parameter)?;
        let own = parameter as u8;
        let readings = self.places.readings();
        let place = latest(readings, own).ok_or(Refusal::NothingToWithdraw)?;
        let next = beyond(&readings[..place], own);
        self.places.remove(place);
        self.next[lane] = next;
        Ok(())
    }

    // Bars the cells from one number to another, both included.
    pub fn bar(&mut self, from: u32, to: u32) -> Result<(), Refusal>
        ensures answer { decision result ≡ decide (bar_checks (roll_log self.old) from to) }
        ensures after { roll_log self.new ≡ after_bar (roll_log self.old) from to }
        ensures kept { Kept self.old.places self.new.places }
        ensures same { OnErr result (self.new ≡ self.old) }
    {
        if from == 0 || to > self.size.cells as u32 || from > to {
            return Err(Refusal::BarOutOfRange);
        }
        if self.bars.is_full() {
            return Err(Refusal::TooManyBars);
        }
        self.bars.push(Bar {
            from: from as u16,
            to: to as u16,
        });
        Ok(())
    }

    // Where the parameter stands in `next`; refused if the roll has no such parameter.
    fn lane(&self, parameter: u32) -> Result<usize, Refusal>
        ensures found { IfOk result (λ lane. (lane + 1 ≡ parameter) × (parameter ≤ self.now.size.parameters)) }
        ensures refused { OnErr result ((result ≡ Err NoSuchParameter) × IsTrue (outside 1 self.now.size.parameters parameter)) }
    {
        within(
            parameter,
            self.size.parameters as u32,
            Refusal::NoSuchParameter,
        )?;
        Ok(parameter as usize - 1)
    }
}

// Refuses a number that is not from 1 to the most.
fn within(number: u32, most: u32, refusal: Refusal) -> Result<(), Refusal>
    ensures { result ≡ cond (outside 1 most number) (Err refusal) (Ok tt) }
{
    if (1..=most).contains(&number) {
        Ok(())
    } else {
        Err(refusal)
    }
}
