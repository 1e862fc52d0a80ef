// One of two criteria, chosen as a program runs.
ghost use Rattle.std.specs.Prelude.{◌≡◌};
ghost use Rattle.calls.specs.OneOf.{held_by, one_of};
ghost use Rattle.calls.specs.OneOfLaws.{order_one, adding_one};

use criteria::criterion::Criterion;
use std::cmp::Ordering;

// The criterion chosen; its marks and totals are of the same choice.
#[derive(Clone, Copy, PartialEq, Eq, Debug)]
pub enum OneOf<A, B> {
    First(A),
    Second(B),
}

impl<A: Criterion, B: Criterion> Criterion for OneOf<A, B> {
    type Mark = OneOf<A::Mark, B::Mark>;

    type Total = OneOf<A::Total, B::Total>;

    ghost rules = { λ s. one_of A.Criterion.rules B.Criterion.rules s };

    ghost held = { λ s n t. held_by A.Criterion.held B.Criterion.held s n t };

    ghost order = { λ s. order_one A.Criterion.rules B.Criterion.rules A.Criterion.order B.Criterion.order s };

    ghost adding = { λ s. adding_one A.Criterion.rules B.Criterion.rules A.Criterion.adding B.Criterion.adding s };

    // The choice is data, read from text, and its marks and totals are of two types: a `match` tells them apart, where
    // a trait object could not.
    fn mark(&self, sheet: u16, counts: &[u16; 8]) -> OneOf<A::Mark, B::Mark> {
        match self {
            OneOf::First(by) => OneOf::First(by.mark(sheet, counts)),
            OneOf::Second(by) => OneOf::Second(by.mark(sheet, counts)),
        }
    }

    fn none(&self) -> OneOf<A::Total, B::Total> {
        match self {
            OneOf::First(by) => OneOf::First(by.none()),
            OneOf::Second(by) => OneOf::Second(by.none()),
        }
    }

    fn add(
        &self,
        total: OneOf<A::Total, B::Total>,
        mark: OneOf<A::Mark, B::Mark>,
    ) -> OneOf<A::Total, B::Total> {
        match (self, total, mark) {
            (OneOf::First(by), OneOf::First(t), OneOf::First(m)) => OneOf::First(by.add(t, m)),
            (OneOf::Second(by), OneOf::Second(t), OneOf::Second(m)) => OneOf::Second(by.add(t, m)),
            _ => total,
        }
    }

    // Totals of different choices are never compared by a plan; those of the first come before.
    fn compare(&self, a: OneOf<A::Total, B::Total>, b: OneOf<A::Total, B::Total>) -> Ordering {
        match (self, a, b) {
            (OneOf::First(by), OneOf::First(t), OneOf::First(u)) => by.compare(t, u),
            (OneOf::Second(by), OneOf::Second(t), OneOf::Second(u)) => by.compare(t, u),
            (_, OneOf::First(_), OneOf::Second(_)) => Ordering::Less,
            (_, OneOf::Second(_), OneOf::First(_)) => Ordering::Greater,
            _ => Ordering::Equal,
        }
    }
}
