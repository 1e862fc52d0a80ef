// Bars on the cells of a sheet.
ghost use Rattle.std.specs.Prelude.{◌≡◌, ◌+◌, ◌-◌, ◌≤◌, not};
ghost use Rattle.model.specs.Recorded.{Barring};
ghost use Rattle.model.specs.Sheets.{clear};

use model::bar::Bar;

// Whether a bar stands on one of the cells from `first` to `last`.
pub(crate) fn crossed(bars: &[Bar], first: u16, last: u16) -> bool
    requires barring { Barring 32768 bars.now }
    requires order { first ≤ last }
    ensures { result ≡ not (clear bars.now first (last + 1 - first)) }
{
    bars.iter().any(|bar| bar.from <= last && first <= bar.to)
}
