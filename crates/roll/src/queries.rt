// What a roll tells of itself.
ghost use Rattle.std.specs.Prelude.{◌≡◌, ◌≤◌};
ghost use Rattle.model.specs.Serving.{ServedAt, away, serving, serving_at};
ghost use Rattle.roll.specs.Rolls.{roll_log};

use crate::held::Roll;
use model::bar::Bar;
use model::reading::Reading;
use model::size::Size;

impl<'a> Roll<'a> {
    pub fn size(&self) -> Size
        ensures cells { result.cells ≡ (roll_log self.now).cells }
        ensures sheet { result.sheet ≡ (roll_log self.now).sheet }
        ensures parameters { result.parameters ≡ (roll_log self.now).parameters }
        ensures foil { (1 ≤ result.cells) × (result.cells ≤ 32768) }
        ensures piece { (1 ≤ result.sheet) × (result.sheet ≤ 4096) }
        ensures kinds { (1 ≤ result.parameters) × (result.parameters ≤ 8) }
    {
        self.size
    }

    // The readings, in recorded order.
    pub fn readings(&self) -> &[Reading]
        ensures { result.now ≡ (roll_log self.now).readings }
    {
        self.places.readings()
    }

    // The bars, in recorded order.
    pub fn bars(&self) -> &[Bar]
        ensures { result.now ≡ (roll_log self.now).bars }
    {
        self.bars.as_slice()
    }

    // The reading of the parameter that serves the cell, found by a look at each; none where the parameter has no
    // reading or the roll no such cell.
    pub fn serving(&self, parameter: u32, cell: u32) -> Option<Reading>
        ensures value { result ≡ serving_at (roll_log self.now) parameter cell }
        ensures serves { ServedAt (roll_log self.now) parameter cell result }
    {
        if !(1..=self.size.cells as u32).contains(&cell) {
            return None;
        }
        nearest(self.readings(), parameter, cell)
    }
}

// Of the readings of the parameter the nearest to the cell's middle, the earlier at a tie.
fn nearest(readings: &[Reading], parameter: u32, cell: u32) -> Option<Reading>
    requires first { 1 ≤ cell }
    requires last { cell ≤ 32768 }
    ensures { result ≡ serving readings.now parameter cell }
{
    readings
        .iter()
        .filter(|r| r.parameter as u32 == parameter)
        .min_by_key(|r| away(cell, **r))
        .copied()
}

// How far the reading lies from the middle of the cell, in half cells.
fn away(cell: u32, reading: Reading) -> u32
    requires first { 1 ≤ cell }
    requires last { cell ≤ 32768 }
    ensures { result ≡ away cell reading }
{
    (2 * reading.position as u32).abs_diff(2 * cell - 1)
}
