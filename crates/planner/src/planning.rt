// Plan: the most sheets, of these the cheapest, of these the earliest.
ghost use Rattle.std.specs.Prelude.{◌≡◌, ℕ, ◌<◌, [], ◌∷◌, length, IfOk, MatchResult, slice_set};
ghost use Rattle.model.specs.Counting.{Counted};
ghost use Rattle.model.specs.Refusals.{decide, decision};
ghost use Rattle.planner.specs.Planning.{Answered, Decided, TableAfter, fills, room_check};
ghost use Rattle.sheets.specs.Logs.{log_of};

use crate::filling;
use choices::work::WorkPlace;
use criteria::criterion::Criterion;
use model::refusal::Refusal;
use model::size::Size;
use recipe::Recipe;
use roll::Roll;

// Made by `plan` alone, for the choice that it planned, and neither copied nor changed.
#[derive(Drop)]
pub struct Ticket {
    cells: u16,
    span: u16,
    sheets: u32,
}

impl Ticket {
    fn issued(size: Size, sheets: u32) -> Self
        ensures { result ≡ record { cells = size.cells; span = size.sheet; sheets = sheets } }
    {
        Ticket {
            cells: size.cells,
            span: size.sheet,
            sheets,
        }
    }

    // The cells of the roll.
    pub fn cells(&self) -> u16
        ensures { result ≡ self.now.cells }
    {
        self.cells
    }

    // The cells of a sheet.
    pub fn sheet(&self) -> u16
        ensures { result ≡ self.now.span }
    {
        self.span
    }

    // The sheets of the choice.
    pub fn sheets(&self) -> u32
        ensures { result ≡ self.now.sheets }
    {
        self.sheets
    }
}

// What `plan` answers; the ends of the sheets are in the places lent to it.
#[derive(Drop)]
pub struct Planned<T> {
    pub sheets: u32,
    pub total: T,
    pub ticket: Ticket,
}

// Whether there are places for so many sheets.
fn room(sheets: u32, places: usize) -> Result<(), Refusal>
    ensures { decision result ≡ decide (room_check places sheets ∷ []) }
{
    if places < sheets as usize {
        return Err(Refusal::EndsTooShort { sheets });
    }
    Ok(())
}

// Apart, so that its contract says that no other place is written.
fn put(ends: &mut [u32], k: usize, end: u32)
    requires { k < length ends.old }
    ensures { ends.new ≡ slice_set ends.old k end }
{
    ends[k] = end;
}

// Writes the ends of the best choice into the first places for ends, and into each work place the best choice up to there.
pub fn plan<C: Criterion>(
    roll: &Roll,
    recipe: &Recipe,
    criterion: &C,
    work: &mut [WorkPlace<C::Total>],
    ends: &mut [u32],
) -> Result<Planned<C::Total>, Refusal>
    ensures answer { Decided (log_of roll.now recipe.now) (C.rules criterion.now) (length work.old) (length ends.old) (decision result) }
    ensures value { MatchResult result (λ p. Answered (log_of roll.now recipe.now) (C.rules criterion.now) ends.old ends.new p) (λ _. ends.new ≡ ends.old) }
    ensures table { TableAfter (log_of roll.now recipe.now) (C.rules criterion.now) work.old work.new (fills (decision result)) }
    ensures counted { IfOk result (λ p. (sheets looks : ℕ) → Counted (log_of roll.now recipe.now) sheets looks → p.sheets ≡ sheets) }
{
    filling::fill(roll, recipe, criterion, work)?;
    let size = roll.size();
    let best = work[size.cells as usize];
    room(best.sheets, ends.len())?;
    let mut at = size.cells as usize;
    // By index: of the places that a loop over `iter_mut().rev()` writes, nothing is known behind it.
    for left in (0..best.sheets as usize).rev() {
        let last = work[at].last;
        put(ends, left, last);
        at = filling::behind(last as usize, size);
    }
    Ok(Planned {
        sheets: best.sheets,
        total: best.total,
        ticket: Ticket::issued(size, best.sheets),
    })
}
