// Ranked: two criteria as one, the second looked at only where the first finds equal.
ghost use Rattle.criteria.specs.Delivered.{ranked};
ghost use Rattle.std.proofs.Common.{rules};

use crate::criterion::Criterion;
use std::cmp::Ordering;

#[derive(Clone, Copy, PartialEq, Eq, Debug)]
pub struct Ranked<A, B> {
    pub first: A,
    pub second: B,
}

impl<A: Criterion, B: Criterion> Criterion for Ranked<A, B> {
    type Mark = (A::Mark, B::Mark);

    type Total = (A::Total, B::Total);

    ghost rules = { λ s. ranked (A.Criterion.rules s.first) (B.Criterion.rules s.second) };

    ghost held = { λ s n t. A.Criterion.held s.first n t.0 × B.Criterion.held s.second n t.1 };

    ghost order = { Prim.search rules };

    ghost adding = { Prim.search rules };

    fn mark(&self, sheet: u16, counts: &[u16; 8]) -> (A::Mark, B::Mark) {
        (
            self.first.mark(sheet, counts),
            self.second.mark(sheet, counts),
        )
    }

    fn none(&self) -> (A::Total, B::Total) {
        (self.first.none(), self.second.none())
    }

    fn add(&self, total: (A::Total, B::Total), mark: (A::Mark, B::Mark)) -> (A::Total, B::Total) {
        (
            self.first.add(total.0, mark.0),
            self.second.add(total.1, mark.1),
        )
    }

    // Inlined, so that the totals of two criteria are not copied to it.
    #[inline(always)]
    fn compare(&self, a: (A::Total, B::Total), b: (A::Total, B::Total)) -> Ordering {
        let first = self.first.compare(a.0, b.0);
        first.then_with(|| self.second.compare(a.1, b.1))
    }
}
