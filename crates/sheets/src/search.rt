// The search for the reading that serves a cell, which goes on to the next cell from where it stands.
ghost use Rattle.std.specs.Prelude.{◌≡◌, ◌+◌, ◌-◌, ◌*◌, ◌<◌, ◌≤◌, length, nat_lt};
ghost use Rattle.model.specs.Recorded.{Bare};
ghost use Rattle.model.specs.Serving.{at, serving};
ghost use Rattle.sheets.specs.Standing.{StandsIn};

use crate::lane::Lane;
use model::reading::Reading;

// Where the readings of one parameter stand that are nearest to the middle of a cell.
#[derive(Clone, Copy)]
pub(crate) struct Search {
    pub(crate) cell: u16,
    // the place of the last one short of the middle
    pub(crate) before: Option<usize>,
    // the place of the first one past it; where there is none, the end of the readings, up to which none is
    pub(crate) after: usize,
}

impl Search {
    pub(crate) const NOWHERE: Search = Search {
        cell: 0,
        before: None,
        after: 0,
    };

    // Before the first cell.
    pub(crate) fn new(lane: &Lane) -> Search
        ensures stands { StandsIn lane.now result }
        ensures cell { result.cell ≡ 0 }
    {
        Search {
            cell: 0,
            before: None,
            after: place_from(lane.readings, lane.parameter, 0),
        }
    }

    // The reading that serves the cell.
    pub(crate) fn serving(self, lane: &Lane) -> Option<Reading>
        requires { StandsIn lane.now self }
        ensures { result ≡ serving lane.now.readings.now lane.now.parameter self.cell }
    {
        let next = lane.readings.get(self.after).copied();
        let Some(place) = self.before else {
            return next;
        };
        let last = lane.readings[place];
        match next {
            Some(next) if nearer(next.position, last.position, self.cell) => Some(next),
            _ => Some(last),
        }
    }

    // On to the next cell. Positions rise, so that one reading at most comes to lie short of the middle.
    pub(crate) fn advance(&mut self, lane: &Lane)
        requires stands { StandsIn lane.now self.old }
        requires room { self.old.cell < 65535 }
        ensures stands { StandsIn lane.now self.new }
        ensures moved { self.new.cell ≡ self.old.cell + 1 }
    {
        self.cell += 1;
        if self.after < lane.readings.len() && lane.readings[self.after].position < self.cell {
            self.before = Some(self.after);
            self.after = place_from(lane.readings, lane.parameter, self.after + 1);
        }
    }
}

// The place of the parameter's first reading from place `from` on; the end where there is none.
fn place_from(readings: &[Reading], parameter: u8, from: usize) -> usize
    requires { from ≤ length readings.now }
    ensures low { from ≤ result }
    ensures high { result ≤ length readings.now }
    ensures none { Bare readings.now parameter from result }
    ensures own { result < length readings.now → (at readings.now result).parameter ≡ parameter }
{
    let rest = &readings[from..];
    let steps = rest.iter().position(|r| r.parameter == parameter);
    from + steps.unwrap_or(rest.len())
}

// Whether the position at or past the cell's middle is nearer to it than the one short of it.
fn nearer(past: u16, short: u16, cell: u16) -> bool
    requires past { cell ≤ past }
    requires short { short < cell }
    ensures { result ≡ nat_lt (2 * past - (2 * cell - 1)) (2 * cell - 1 - 2 * short) }
{
    past as u32 + short as u32 + 1 < 2 * cell as u32
}
