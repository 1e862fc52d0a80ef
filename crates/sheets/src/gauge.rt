// The outlier cells of one parameter, counted as cells enter in front and leave behind.
ghost use Rattle.std.specs.Prelude.{◌≡◌, ◌+◌, ◌<◌, ◌≤◌};
ghost use Rattle.model.specs.Sheets.{bit};
ghost use Rattle.model.specs.Verdicts.{is_outlier};

use crate::lane::Lane;
use crate::search::Search;
use model::verdict::Verdict;

// The outliers among the cells from the one that leaves next up to the one that enters next. A gauge is lent its lane, since
// gauges lie in an array and limits lie in none: that it keeps to its lane stands in the contracts.
#[derive(Clone, Copy)]
pub(crate) struct Gauge {
    pub(crate) entering: Search,
    pub(crate) leaving: Search,
    pub(crate) outliers: u16,
    ghost order: { leaving.cell ≤ entering.cell },
}

fn weight(verdict: Verdict) -> u16
    ensures { result ≡ bit (is_outlier verdict) }
{
    u16::from(verdict == Verdict::Outlier)
}

impl Gauge {
    ghost use Rattle.sheets.specs.Gauges.{GaugedIn, Shifted};

    // Over no cell.
    pub(crate) const AT_REST: Gauge = Gauge {
        entering: Search::NOWHERE,
        leaving: Search::NOWHERE,
        outliers: 0,
    };

    // Over the first n cells.
    pub(crate) fn over(lane: &Lane, n: u16) -> Gauge
        requires room { n ≤ 65534 }
        ensures gauged { GaugedIn lane.now result }
        ensures cells { (result.leaving.cell ≡ 1) × (result.entering.cell ≡ n + 1) }
    {
        let mut search = Search::new(lane);
        search.advance(lane);
        let mut gauge = Gauge {
            entering: search,
            leaving: search,
            outliers: 0,
        };
        gauge.widen(lane, n);
        gauge
    }

    // Takes the next n cells in.
    fn widen(&mut self, lane: &Lane, n: u16)
        requires gauged { GaugedIn lane.now self.old }
        requires room { self.old.entering.cell + n ≤ 65535 }
        ensures gauged { GaugedIn lane.now self.new }
        ensures cells { Shifted self.old self.new 0 n }
    {
        for _i in 0..n {
            self.enter(lane);
        }
    }

    // Takes the next cell in.
    fn enter(&mut self, lane: &Lane)
        requires gauged { GaugedIn lane.now self.old }
        requires room { self.old.entering.cell < 65535 }
        ensures gauged { GaugedIn lane.now self.new }
        ensures cells { Shifted self.old self.new 0 1 }
    {
        self.outliers += weight(lane.limits.verdict(self.entering.serving(lane)));
        self.entering.advance(lane);
    }

    // Lets the first cell go.
    fn leave(&mut self, lane: &Lane)
        requires gauged { GaugedIn lane.now self.old }
        requires any { self.old.leaving.cell < self.old.entering.cell }
        requires room { self.old.leaving.cell < 65535 }
        ensures gauged { GaugedIn lane.now self.new }
        ensures cells { Shifted self.old self.new 1 0 }
    {
        self.outliers -= weight(lane.limits.verdict(self.leaving.serving(lane)));
        self.leaving.advance(lane);
    }

    // Takes the next n cells in, and lets as many go.
    pub(crate) fn slide(&mut self, lane: &Lane, n: u16)
        requires gauged { GaugedIn lane.now self.old }
        requires room { self.old.entering.cell + n ≤ 65535 }
        ensures gauged { GaugedIn lane.now self.new }
        ensures cells { Shifted self.old self.new n n }
    {
        for _i in 0..n {
            self.enter(lane);
            self.leave(lane);
        }
    }
}
