// All totals are equal: no choice is cheaper than another.
ghost use Rattle.std.specs.Prelude.{◌≤◌};
ghost use Rattle.criteria_tests.specs.Outside.{indifferent, worst};
ghost use Rattle.std.proofs.Common.{rules};

use criteria::criterion::Criterion;
use std::cmp::Ordering;

// The total is the number of sheets, at which compare never looks.
#[derive(Clone, Copy, PartialEq, Eq, Debug)]
pub struct Indifferent;

impl Criterion for Indifferent {
    type Mark = u8;

    type Total = u32;

    ghost rules = { λ _. indifferent };

    ghost held = { λ _ n t. t ≤ n };

    ghost order = { Prim.search rules };

    ghost adding = { Prim.search rules };

    fn mark(&self, _sheet: u16, _counts: &[u16; 8]) -> u8 {
        1
    }

    fn none(&self) -> u32 {
        0
    }

    fn add(&self, total: u32, _mark: u8) -> u32 {
        total.saturating_add(1)
    }

    fn compare(&self, _a: u32, _b: u32) -> Ordering {
        Ordering::Equal
    }
}

// A criterion by the worst sheet keeps no law of adding: a must-fail edit puts it here.
