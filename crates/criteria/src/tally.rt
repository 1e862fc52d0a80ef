// Tally: sheets counted by class; the fewest of the worst class come first.
ghost use Rattle.std.specs.Prelude.{◌≡◌, ◌≤◌};
ghost use Rattle.criteria.specs.Delivered.{class_of, greatest, tally, worst_first};
ghost use Rattle.criteria.specs.Sums.{by_sums};
ghost use Rattle.criteria.specs.Orders.{ordered_by, ordered_sums};
ghost use Rattle.std.proofs.Common.{rules};

use crate::criterion::Criterion;
use std::cmp::Ordering;

// A sheet's class, by its greatest outlier count: none, at most 20 of a thousand cells, at most 50, or more.
#[derive(Clone, Copy, PartialEq, Eq, Debug)]
pub enum Class {
    A,
    B,
    C,
    D,
}

// How many sheets are of each class, in the order in which they are printed: a derived order would compare A first.
#[derive(Clone, Copy, PartialEq, Eq, Default, Debug)]
pub struct Classes {
    pub a: u32,
    pub b: u32,
    pub c: u32,
    pub d: u32,
}

impl Classes {
    fn worst_first(self) -> [u32; 4]
        ensures { result ≡ worst_first self }
    {
        [self.d, self.c, self.b, self.a]
    }
}

// By the number of sheets of each class, compared D first, then C, B and A.
#[derive(Clone, Copy, PartialEq, Eq, Debug)]
pub struct Tally;

fn class_of(worst: u16, sheet: u16) -> Class
    ensures { result ≡ class_of worst sheet }
{
    let cells = sheet as u32;
    match worst as u32 {
        0 => Class::A,
        w if 1000 * w <= 20 * cells => Class::B,
        w if 1000 * w <= 50 * cells => Class::C,
        _ => Class::D,
    }
}

fn greatest(counts: &[u16; 8]) -> u16
    ensures { result ≡ greatest counts.now }
{
    counts.iter().copied().fold(0, u16::max)
}

impl Criterion for Tally {
    type Mark = Class;

    type Total = Classes;

    ghost rules = { λ _. tally };

    ghost held = { λ _ n t. (t.a ≤ n) × (t.b ≤ n) × (t.c ≤ n) × (t.d ≤ n) };

    ghost order = { λ s. ordered_by (by_sums 0 4) worst_first (ordered_sums 0 4) };

    ghost adding = { Prim.search rules };

    fn mark(&self, sheet: u16, counts: &[u16; 8]) -> Class {
        class_of(greatest(counts), sheet)
    }

    fn none(&self) -> Classes {
        Classes::default()
    }

    fn add(&self, mut total: Classes, mark: Class) -> Classes {
        match mark {
            Class::A => total.a = total.a.saturating_add(1),
            Class::B => total.b = total.b.saturating_add(1),
            Class::C => total.c = total.c.saturating_add(1),
            Class::D => total.d = total.d.saturating_add(1),
        }
        total
    }

    #[tactic(auto, using(crate::proofs::Sums::compared))]
    fn compare(&self, a: Classes, b: Classes) -> Ordering {
        a.worst_first().cmp(&b.worst_first())
    }
}
