// Entries with limits: made from rows, and asked.
ghost use Rattle.std.specs.Prelude.{◌≡◌};
ghost use Rattle.model.specs.Verdicts.{judged};
ghost use Rattle.recipe.specs.Entries.{Makes, plain};

use crate::held::Limits;
use model::reading::Reading;
use model::refusal::Refusal;
use model::row::Row;
use model::verdict::Verdict;

// The limits that a row gives; a row that fails the check gives none, wherever it came from.
impl TryFrom<Row> for Limits {
    type Error = Refusal;

    ghost try_from_gives = { Makes };

    fn try_from(row: Row) -> Result<Limits, Refusal> {
        let Row { low, high, share } = row;
        if !(low.is_finite() && high.is_finite() && low <= high) {
            return Err(Refusal::LimitsOutOfOrder);
        }
        if share > 1000 {
            return Err(Refusal::ShareTooGreat);
        }
        Ok(Limits { low, high, share })
    }
}

// The limits and the share, as a plain row.
impl From<Limits> for Row {
    ghost from_gives = { λ l row. row ≡ plain l };

    fn from(limits: Limits) -> Row {
        Row {
            low: limits.low,
            high: limits.high,
            share: limits.share,
        }
    }
}

impl Limits {
    // The verdict on a cell that this reading serves; a missing reading makes an outlier. What makes one stands as the rules
    // list it: a test for the range would hide that no number is in none.
    pub fn verdict(self, reading: Option<Reading>) -> Verdict
        ensures { result ≡ judged (plain self) reading }
    {
        match reading {
            None => Verdict::Outlier,
            Some(r) => {
                if r.value.is_nan() || r.value < self.low || self.high < r.value {
                    Verdict::Outlier
                } else {
                    Verdict::Within
                }
            }
        }
    }
}
