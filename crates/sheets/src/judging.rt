// What the recipe says of a cell and of a sheet.
ghost use Rattle.std.specs.Prelude.{◌≡◌};
ghost use Rattle.sheets.specs.Answers.{sheet_at, verdict_at};
ghost use Rattle.sheets.specs.Logs.{log_of};

use crate::counting;
use crate::judged::Sheet;
use crate::window::Window;
use model::verdict::Verdict;
use recipe::Recipe;
use roll::Roll;

// The verdict of the parameter on the cell; none where the roll has no such cell or no such parameter, or the
// parameter has no limits.
pub fn verdict(roll: &Roll, recipe: &Recipe, parameter: u32, cell: u32) -> Option<Verdict>
    ensures { result ≡ verdict_at (log_of roll.now recipe.now) parameter cell }
{
    let size = roll.size();
    if !(1..=size.cells as u32).contains(&cell) || parameter > size.parameters as u32 {
        return None;
    }
    let limits = recipe.entry(parameter)?;
    Some(limits.verdict(roll.serving(parameter, cell)))
}

// The sheet that ends at `end`; none where no sheet of the roll ends there, or a parameter of the roll has no limits.
pub fn sheet(roll: &Roll, recipe: &Recipe, end: u32) -> Option<Sheet>
    ensures { result ≡ sheet_at (log_of roll.now recipe.now) end }
{
    let size = roll.size();
    if !(size.sheet as u32..=size.cells as u32).contains(&end) {
        return None;
    }
    counting::complete(roll, recipe).ok()?;
    let mut window = Window::new(roll, recipe);
    window.slide(end as u16 - size.sheet);
    Some(window.sheet())
}
