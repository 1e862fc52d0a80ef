// A criterion gives each sheet a mark, adds marks to totals, and compares totals.
ghost use Rattle.std.specs.Prelude.{◌≡◌, ℕ, ◌+◌, ◌<◌};
ghost use Rattle.criteria.specs.Law.{Adding, Marked, Ordered, Rules, most_marks};

use std::cmp::Ordering;

// Each question is answered from the value of the criterion alone, and changes nothing.
pub trait Criterion {
    type Mark: Copy;

    type Total: Copy;

    // what the criterion means
    ghost rules: { Self → Rules Self.Mark Self.Total };

    // what a total of so many marks keeps to
    ghost held: { Self → ℕ → Self.Total → Type 0 };

    // The mark of a sheet, by its length in cells and its outlier counts.
    fn mark(&self, sheet: u16, counts: &[u16; 8]) -> Self::Mark
        ensures { result ≡ (rules self.now).mark sheet counts.now };

    // The total of no sheets.
    fn none(&self) -> Self::Total
        ensures value { result ≡ (rules self.now).none }
        ensures held { held self.now 0 result };

    // The total with one mark more. This is promised of totals of fewer than 32,768 marks, and of marks of sheets of at most
    // 4,096 cells, which planning keeps to; other totals and marks get some total.
    fn add(&self, total: Self::Total, mark: Self::Mark) -> Self::Total
        ensures value { (n : ℕ) → n < most_marks → held self.now n total → Marked (rules self.now) mark → result ≡ (rules self.now).add total mark }
        ensures held { (n : ℕ) → n < most_marks → held self.now n total → Marked (rules self.now) mark → held self.now (n + 1) result };

    fn compare(&self, a: Self::Total, b: Self::Total) -> Ordering
        ensures { result ≡ (rules self.now).rank a b };

    // the laws of order
    ghost order: { (s : Self) → Ordered (rules s).rank };

    // the law of adding
    ghost adding: { (s : Self) → Adding (rules s) };
}
