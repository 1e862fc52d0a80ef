// Count: the greatest number of sheets that can be cut.
ghost use Rattle.std.specs.Prelude.{◌≡◌, IfOk, OnOk};
ghost use Rattle.model.specs.Counting.{Complete, Counted, count_checks};
ghost use Rattle.model.specs.Refusals.{decide, decision};
ghost use Rattle.sheets.specs.Logs.{log_of};

use crate::window::Window;
use model::refusal::Refusal;
use recipe::Recipe;
use roll::Roll;

// The greatest number of sheets of any choice, and how many ends it looked at.
pub fn count(roll: &Roll, recipe: &Recipe) -> Result<(u32, u32), Refusal>
    ensures answer { decision result ≡ decide (count_checks (log_of roll.now recipe.now)) }
    ensures value { IfOk result (λ t. Counted (log_of roll.now recipe.now) t.0 t.1) }
{
    complete(roll, recipe)?;
    Ok(walk(roll, recipe))
}

// Whether each parameter of the roll has limits; the refusal tells the smallest that has none.
pub(crate) fn complete(roll: &Roll, recipe: &Recipe) -> Result<(), Refusal>
    ensures answer { decision result ≡ decide (count_checks (log_of roll.now recipe.now)) }
    ensures complete { OnOk result (Complete (log_of roll.now recipe.now)) }
{
    for parameter in 1..=roll.size().parameters {
        if recipe.entry(parameter as u32).is_none() {
            return Err(Refusal::WithoutLimits { parameter });
        }
    }
    Ok(())
}

// Takes each good sheet as soon as it can, from the first end on. How far it goes on is found by the look, so that no
// range gives the ends.
fn walk(roll: &Roll, recipe: &Recipe) -> (u32, u32)
    requires { Complete (log_of roll.now recipe.now) }
    ensures { Counted (log_of roll.now recipe.now) result.0 result.1 }
{
    let mut window = Window::new(roll, recipe);
    let mut sheets = 0;
    let mut looks = 0;
    let cells = roll.size().cells;
    while window.end <= cells {
        let look = window.look();
        looks += 1;
        if look.good {
            sheets += 1;
        }
        window.slide(look.stride);
    }
    (sheets, looks)
}
