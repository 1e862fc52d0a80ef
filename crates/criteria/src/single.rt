// Single: the outlier cells of one parameter, summed.
ghost use Rattle.std.specs.Prelude.{◌*◌, ◌≤◌};
ghost use Rattle.criteria.specs.Delivered.{single};
ghost use Rattle.std.proofs.Common.{rules};

use crate::criterion::Criterion;
use std::cmp::Ordering;

// By one parameter from 1 to 8; any other number means 1.
#[derive(Clone, Copy, PartialEq, Eq, Debug)]
pub struct Single {
    pub parameter: u32,
}

impl Criterion for Single {
    type Mark = u16;

    type Total = u32;

    ghost rules = { λ s. single s.parameter };

    ghost held = { λ _ n t. t ≤ n * 4096 };

    ghost order = { Prim.search rules };

    ghost adding = { Prim.search rules };

    fn mark(&self, _sheet: u16, counts: &[u16; 8]) -> u16 {
        let parameter = match self.parameter {
            2..=8 => self.parameter,
            _ => 1,
        };
        counts[parameter as usize - 1]
    }

    fn none(&self) -> u32 {
        0
    }

    fn add(&self, total: u32, mark: u16) -> u32 {
        total.saturating_add(mark as u32)
    }

    fn compare(&self, a: u32, b: u32) -> Ordering {
        a.cmp(&b)
    }
}
