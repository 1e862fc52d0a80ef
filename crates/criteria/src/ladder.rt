// Ladder: the outlier cells of each parameter, summed; parameter 1 weighs most.
ghost use Rattle.std.specs.Prelude.{◌≡◌, ℕ, ◌+◌, ◌*◌, ◌<◌};
ghost use Rattle.criteria.specs.Delivered.{SumsOf, ladder};
ghost use Rattle.criteria.specs.Law.{Marked, most_marks};
ghost use Rattle.criteria.specs.Sums.{by_sums};
ghost use Rattle.criteria.specs.Orders.{ordered_sums};
ghost use Rattle.std.proofs.Common.{rules};

use crate::criterion::Criterion;
use std::array;
use std::cmp::Ordering;

// By eight sums, compared from parameter 1 on.
#[derive(Clone, Copy, PartialEq, Eq, Debug)]
pub struct Ladder;

impl Criterion for Ladder {
    type Mark = [u16; 8];

    type Total = [u32; 8];

    ghost rules = { λ _. ladder };

    ghost held = { λ _ n t. SumsOf n t };

    ghost order = { λ s. ordered_sums 0 8 };

    ghost adding = { Prim.search rules };

    fn mark(&self, _sheet: u16, counts: &[u16; 8]) -> [u16; 8] {
        *counts
    }

    fn none(&self) -> [u32; 8] {
        [0; 8]
    }

    fn add(&self, total: [u32; 8], mark: [u16; 8]) -> [u32; 8] {
        raised(total, mark)
    }

    #[tactic(auto, using(crate::proofs::Sums::compared))]
    fn compare(&self, a: [u32; 8], b: [u32; 8]) -> Ordering {
        a.cmp(&b)
    }
}

// Each sum with its count more. Apart from `add`, whose bugs would else show in the proof of the closure's calls alone.
fn raised(total: [u32; 8], mark: [u16; 8]) -> [u32; 8]
    ensures value { (n : ℕ) → n < most_marks → SumsOf n total → Marked ladder mark → result ≡ ladder.add total mark }
    ensures held { (n : ℕ) → n < most_marks → SumsOf n total → Marked ladder mark → SumsOf (n + 1) result }
{
    array::from_fn(|i| total[i].saturating_add(mark[i] as u32))
}
