// Scanning: every position of a roll in turn, with the sheet that ends there.
ghost use Rattle.std.specs.Prelude.{◌≡◌, ◌+◌, min, IfOk};
ghost use Rattle.model.specs.Counting.{count_checks};
ghost use Rattle.model.specs.Log.{Log};
ghost use Rattle.model.specs.Refusals.{decide, decision};
ghost use Rattle.sheets.specs.Answers.{sheet_at};
ghost use Rattle.sheets.specs.Logs.{log_of};
ghost use Rattle.sheets.specs.Scans.{Sees};

use crate::counting;
use crate::judged::Sheet;
use crate::scan::Scan;
use crate::window::Window;
use model::refusal::Refusal;
use recipe::Recipe;
use roll::Roll;

impl<'a, 'b> Scan<'a, 'b> {
    // At the start of the roll.
    pub fn over(roll: &'a Roll, recipe: &'b Recipe) -> Result<Scan<'a, 'b>, Refusal>
        ensures answer { decision result ≡ decide (count_checks (log_of roll.now recipe.now)) }
        ensures start { IfOk result (λ s. s.position ≡ 0) }
        ensures sees { IfOk result (λ s. Sees s (log_of roll.now recipe.now)) }
    {
        counting::complete(roll, recipe)?;
        Ok(Scan {
            window: Window::new(roll, recipe),
            position: 0,
        })
    }

    // On to the next position of the roll, if there is one: the sheet that ends there, and none where none does.
    pub fn next_end(&mut self) -> Option<Sheet>
        ensures value { (log : Log) → Sees self.old log → result ≡ sheet_at log (self.old.position + 1) }
        ensures moved { (log : Log) → Sees self.old log → self.new.position ≡ min (self.old.position + 1) log.roll.cells }
        ensures sees { (log : Log) → Sees self.old log → Sees self.new log }
    {
        let size = self.window.roll.size();
        if self.position >= size.cells {
            return None;
        }
        self.position += 1;
        if self.position < size.sheet {
            return None;
        }
        let ahead = self.position - self.window.end;
        self.window.slide(ahead);
        Some(self.window.sheet())
    }
}
