// A window over one sheet that moves along the roll, with the sheet's outlier counts.
ghost use Rattle.std.specs.Prelude.{◌≡◌, ◌+◌, ◌-◌, ◌*◌, ◌/◌, ◌≤◌, max, true, if◌then◌else◌};
ghost use Rattle.model.specs.Counting.{Complete, excess, stride};
ghost use Rattle.model.specs.Recorded.{Rising};
ghost use Rattle.model.specs.Recipes.{has_limits, row_of};
ghost use Rattle.model.specs.Sheets.{counts, good};
ghost use Rattle.recipe.specs.Entries.{plain};
ghost use Rattle.recipe.specs.Tables.{recipe_log};
ghost use Rattle.roll.specs.Rolls.{roll_log};
ghost use Rattle.sheets.specs.Logs.{log_of};
ghost use Rattle.sheets.specs.Windows.{Over};

use crate::bars;
use crate::gauge::Gauge;
use crate::judged::Sheet;
use crate::lane::Lane;
use model::reading::Reading;
use model::row::Row;
use recipe::{Limits, Recipe};
use roll::Roll;

// The sheet that ends at `end`: one gauge for each of the eight parameters that the rules allow, those beyond the roll's at
// rest.
#[derive(Drop)]
pub(crate) struct Window<'a, 'b> {
    pub(crate) roll: &'a Roll<'a>,
    pub(crate) recipe: &'b Recipe,
    pub(crate) end: u16,
    pub(crate) gauges: [Gauge; 8],
    ghost over: { Over (log_of roll.now recipe.now) end gauges },
}

// Whether a sheet is good, and how far the walk over the ends goes on from it, which it does in either case.
#[derive(Clone, Copy)]
pub(crate) struct Look {
    pub(crate) good: bool,
    pub(crate) stride: u16,
}

// The entry of a parameter that is known to have limits.
fn entry(recipe: &Recipe, parameter: u8) -> Limits
    requires limited { has_limits (row_of (recipe_log recipe.now).rows parameter) ≡ true }
    requires some { 1 ≤ parameter }
    requires few { parameter ≤ 8 }
    ensures { plain result ≡ row_of (recipe_log recipe.now).rows parameter }
{
    recipe.entry(parameter as u32).unwrap()
}

// What is looked up for a parameter that is known to have limits.
fn lane<'a>(readings: &'a [Reading], recipe: &Recipe, parameter: u8) -> Lane<'a>
    requires rising { Rising readings.now }
    requires limited { has_limits (row_of (recipe_log recipe.now).rows parameter) ≡ true }
    requires some { 1 ≤ parameter }
    requires few { parameter ≤ 8 }
    ensures readings { result.readings.now ≡ readings.now }
    ensures parameter { result.parameter ≡ parameter }
    ensures limits { plain result.limits ≡ row_of (recipe_log recipe.now).rows parameter }
{
    Lane {
        readings,
        parameter,
        limits: entry(recipe, parameter),
    }
}

// Moves the gauges of a window whose sheet ends at `end` on by n cells. Apart from `slide`, since in between they are over no
// one sheet; by number, since the invariant of a loop over some of them has no name for the others.
fn slide_gauges(gauges: &mut [Gauge], roll: &Roll, recipe: &Recipe, end: u16, n: u16)
    requires over { Over (log_of roll.now recipe.now) end gauges.old }
    requires room { end + n ≤ 65534 }
    ensures { Over (log_of roll.now recipe.now) (end + n) gauges.new }
{
    let readings = roll.readings();
    for i in 0..roll.size().parameters {
        gauges[i as usize].slide(&lane(readings, recipe, i + 1), n);
    }
}

// By how much the outliers of a sheet pass what the share allows.
fn over(outliers: u16, share: u16, sheet: u16) -> u16
    ensures { result ≡ outliers - share * sheet / 1000 }
{
    let allowed = share as u32 * sheet as u32 / 1000;
    (outliers as u32).saturating_sub(allowed) as u16
}

// How far the walk goes on: past a good sheet, else by the excess, and by one at least.
fn onward(good: bool, sheet: u16, excess: u16) -> u16
    ensures { result ≡ (if good then sheet else max 1 excess) }
{
    if good { sheet } else { excess.max(1) }
}

impl<'a, 'b> Window<'a, 'b> {
    ghost use Rattle.sheets.specs.Seen.{seen};

    // Over the first sheet.
    pub(crate) fn new(roll: &'a Roll, recipe: &'b Recipe) -> Window<'a, 'b>
        requires { Complete (log_of roll.now recipe.now) }
        ensures sees { seen result ≡ log_of roll.now recipe.now }
        ensures end { result.end ≡ (roll_log roll.now).sheet }
    {
        let size = roll.size();
        let readings = roll.readings();
        let mut gauges = [Gauge::AT_REST; 8];
        // by number: what makes an array of a closure would need clauses on it, since each entry is known to have limits
        for i in 0..size.parameters {
            gauges[i as usize] = Gauge::over(&lane(readings, recipe, i + 1), size.sheet);
        }
        Window {
            roll,
            recipe,
            end: size.sheet,
            gauges,
        }
    }

    // Moves on by n cells.
    pub(crate) fn slide(&mut self, n: u16)
        requires room { self.old.end + n ≤ 65534 }
        ensures same { seen self.new ≡ seen self.old }
        ensures moved { self.new.end ≡ self.old.end + n }
    {
        slide_gauges(&mut self.gauges, self.roll, self.recipe, self.end, n);
        self.end += n;
    }

    // The eight outlier counts of the sheet.
    fn counts(&self) -> [u16; 8]
        ensures { result ≡ counts (seen self.now) self.now.end }
    {
        self.gauges.map(|gauge| gauge.outliers)
    }

    // The most by which a parameter of the sheet passes what its share allows. A chain would need clauses on its closure,
    // since each entry is known to have limits.
    fn excess(&self) -> u16
        ensures { result ≡ excess (seen self.now) self.now.end (seen self.now).roll.parameters }
    {
        let size = self.roll.size();
        let mut most: u16 = 0;
        for i in 0..size.parameters {
            let share = Row::from(entry(self.recipe, i + 1)).share;
            most = most.max(over(self.gauges[i as usize].outliers, share, size.sheet));
        }
        most
    }

    // A look at the sheet.
    pub(crate) fn look(&self) -> Look
        requires { self.now.end ≤ (seen self.now).roll.cells }
        ensures good { result.good ≡ good (seen self.now) self.now.end }
        ensures stride { result.stride ≡ stride (seen self.now) self.now.end }
    {
        let sheet = self.roll.size().sheet;
        let excess = self.excess();
        let first = self.end + 1 - sheet;
        let good = excess == 0 && !bars::crossed(self.roll.bars(), first, self.end);
        let stride = onward(good, sheet, excess);
        Look { good, stride }
    }

    // The sheet, as the rules judge it.
    pub(crate) fn sheet(&self) -> Sheet
        requires { self.now.end ≤ (seen self.now).roll.cells }
        ensures counts { result.counts ≡ counts (seen self.now) self.now.end }
        ensures good { result.good ≡ good (seen self.now) self.now.end }
    {
        Sheet {
            counts: self.counts(),
            good: self.look().good,
        }
    }
}
