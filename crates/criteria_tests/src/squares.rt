// The squares of the outlier counts, summed: one sheet with many outliers weighs more than several with few.
ghost use Rattle.std.specs.Prelude.{◌≡◌, ℕ, ◌+◌, ◌*◌, ◌<◌, ◌≤◌};
ghost use Rattle.criteria.specs.Law.{Marked, most_marks};
ghost use Rattle.criteria_tests.specs.Outside.{by_squares, squares};
ghost use Rattle.std.proofs.Common.{rules};

use criteria::criterion::Criterion;
use std::cmp::Ordering;

#[derive(Clone, Copy, PartialEq, Eq, Debug)]
pub struct Squares;

impl Criterion for Squares {
    type Mark = u64;

    type Total = u64;

    ghost rules = { λ _. by_squares };

    ghost held = { λ _ n t. t ≤ n * 134217728 };

    ghost order = { Prim.search rules };

    ghost adding = { Prim.search rules };

    fn mark(&self, _sheet: u16, counts: &[u16; 8]) -> u64 {
        sum_of_squares(counts)
    }

    fn none(&self) -> u64 {
        0
    }

    fn add(&self, total: u64, mark: u64) -> u64 {
        sum(total, mark)
    }

    fn compare(&self, a: u64, b: u64) -> Ordering {
        a.cmp(&b)
    }
}

// Apart from `add`, where the check does not find that a mark is small.
fn sum(total: u64, mark: u64) -> u64
    ensures value { (n : ℕ) → n < most_marks → total ≤ n * 134217728 → Marked by_squares mark → result ≡ total + mark }
    ensures held { (n : ℕ) → n < most_marks → total ≤ n * 134217728 → Marked by_squares mark → result ≤ (n + 1) * 134217728 }
{
    total.saturating_add(mark)
}

fn sum_of_squares(counts: &[u16; 8]) -> u64
    ensures { result ≡ squares counts.now }
{
    counts.iter().map(|&count| square(count) as u64).sum()
}

fn square(count: u16) -> u32
    ensures { result ≡ count * count }
{
    count as u32 * count as u32
}
