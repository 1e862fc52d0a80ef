// Filling the work table: place after place the best choice of ends up to there.
ghost use Rattle.std.specs.Prelude.{◌≡◌, ℕ, ◌+◌, ◌-◌, ◌<◌, ◌⊎◌, length, MatchResult};
ghost use Rattle.choices.specs.Table.{Beats, Filled};
ghost use Rattle.criteria.specs.Law.{Marked, most_marks};
ghost use Rattle.model.specs.Refusals.{decide, decision};
ghost use Rattle.planner.specs.Planning.{fill_checks};
ghost use Rattle.sheets.specs.Logs.{log_of};

use choices::work::WorkPlace;
use criteria::criterion::Criterion;
use model::refusal::Refusal;
use model::size::Size;
use recipe::Recipe;
use roll::Roll;
use sheets::Scan;
use std::cmp::Ordering;

// The places that a roll needs: one for each position.
fn needed(size: Size) -> usize
    ensures { result ≡ size.cells + 1 }
{
    size.cells as usize + 1
}

// The last position at which a sheet may end before the one that ends at `end`.
pub(crate) fn behind(end: usize, size: Size) -> usize
    ensures { result ≡ end - size.sheet }
{
    end.saturating_sub(size.sheet as usize)
}

// Of two places the one with more sheets, or with as many at a lesser total; `kept` where neither is better.
fn better<C: Criterion>(
    criterion: &C,
    kept: WorkPlace<C::Total>,
    taken: WorkPlace<C::Total>,
) -> WorkPlace<C::Total>
    ensures { ((result ≡ taken) × Beats (C.rules criterion.now).rank taken kept) ⊎ ((result ≡ kept) × (Beats (C.rules criterion.now).rank taken kept → ⊥)) }
{
    let more = kept.sheets.cmp(&taken.sheets);
    match more.then_with(|| criterion.compare(taken.total, kept.total)) {
        Ordering::Less => taken,
        _ => kept,
    }
}

// The choice of a place with one sheet more, of that mark and ending at `end`.
fn extended<C: Criterion>(
    criterion: &C,
    before: WorkPlace<C::Total>,
    mark: C::Mark,
    end: u32,
) -> WorkPlace<C::Total>
    requires { before.sheets < most_marks }
    ensures sheets { result.sheets ≡ before.sheets + 1 }
    ensures last { result.last ≡ end }
    ensures sum { C.held criterion.now before.sheets before.total → Marked (C.rules criterion.now) mark → result.total ≡ (C.rules criterion.now).add before.total mark }
    ensures held { C.held criterion.now before.sheets before.total → Marked (C.rules criterion.now) mark → C.held criterion.now result.sheets result.total }
{
    WorkPlace {
        sheets: before.sheets + 1,
        total: criterion.add(before.total, mark),
        last: end,
    }
}

// Fills the table for the roll; a refusal leaves it as it was. Roll and recipe stand side by side, as in `sheets`.
pub(crate) fn fill<C: Criterion>(
    roll: &Roll,
    recipe: &Recipe,
    criterion: &C,
    work: &mut [WorkPlace<C::Total>],
) -> Result<(), Refusal>
    ensures answer { decision result ≡ decide (fill_checks (log_of roll.now recipe.now) (length work.old)) }
    ensures table { MatchResult result (λ _. Filled (log_of roll.now recipe.now) (C.rules criterion.now) work.old work.new) (λ _. work.new ≡ work.old) }
{
    let mut scan = Scan::over(roll, recipe)?;
    let size = roll.size();
    let places = needed(size);
    if work.len() < places {
        return Err(Refusal::WorkTooShort);
    }
    work[0] = WorkPlace::blank(criterion.none());
    // By index: each place looks one sheet back in the same table.
    for j in 1..places {
        let kept = work[j - 1];
        let before = work[behind(j, size)];
        work[j] = match scan.next_end() {
            Some(sheet) if sheet.good => {
                let mark = criterion.mark(size.sheet, &sheet.counts);
                let taken = extended(criterion, before, mark, j as u32);
                better(criterion, kept, taken)
            }
            _ => kept,
        };
    }
    Ok(())
}
