// At most 64 bars, in recorded order; they have memory of a fixed size, so that no bar is refused for want of it.
ghost use Rattle.std.specs.Prelude.{◌≡◌, ◌<◌, ◌≤◌, List, [], ◌∷◌, ◌++◌, length, nat_le, take};
ghost use Rattle.model.specs.declared.bar.Bar.{Bar};

use model::bar::Bar;
use std::marker::Model;

const MOST_BARS: usize = 64;

#[derive(Drop)]
pub(crate) struct Bars {
    all: [Bar; MOST_BARS],
    // the first so many are bars
    standing: usize,
}

// Clauses see the bars alone.
impl Model for Bars {
    ghost Value = { List Bar };

    ghost view = { λ s. take s.standing s.all };

    ghost invariant = { λ s. (length s.all ≡ 64) × (s.standing ≤ 64) };
}

impl Bars {
    pub(crate) fn new() -> Bars
        ensures { result ≡ [] }
    {
        Bars {
            all: [Bar { from: 0, to: 0 }; MOST_BARS],
            standing: 0,
        }
    }

    pub(crate) fn as_slice(&self) -> &[Bar]
        ensures { result.now ≡ self.now }
    {
        &self.all[..self.standing]
    }

    pub(crate) fn is_full(&self) -> bool
        ensures { result ≡ nat_le 64 (length self.now) }
    {
        self.standing >= MOST_BARS
    }

    pub(crate) fn push(&mut self, bar: Bar)
        requires { length self.old < 64 }
        ensures { self.new ≡ self.old ++ bar ∷ [] }
    {
        self.all[self.standing] = bar;
        self.standing += 1;
    }

    pub(crate) fn clear(&mut self)
        ensures { self.new ≡ [] }
    {
        self.standing = 0;
    }
}
