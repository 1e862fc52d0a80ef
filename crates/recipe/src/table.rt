// The recipe's table of rows, one for each parameter from 1 to 8.
ghost use Rattle.std.specs.Prelude.{◌≡◌, is_some, IfSome};
ghost use Rattle.model.specs.Recipes.{after_limits, fresh, has_entry, limits_checks, row_of};
ghost use Rattle.model.specs.Refusals.{decide, decision};
ghost use Rattle.recipe.specs.Entries.{plain};
ghost use Rattle.recipe.specs.Tables.{aside_log, recipe_log};

use crate::held::Limits;
use model::refusal::Refusal;
use model::row::Row;

// A row that gives no limits.
const UNSET: Row = Row {
    low: f32::NAN,
    high: f32::NAN,
    share: 0,
};

// Rows are plain: which of them give limits is asked of each. There are eight, as the rules have parameters.
#[derive(Drop)]
pub struct Recipe {
    pub(crate) rows: [Row; 8],
    // the copy that a trial lays aside and brings back
    pub(crate) aside: [Row; 8],
}

impl Recipe {
    // No entry has limits.
    #[tactic(auto, using(crate::proofs::Nans::nan_is))]
    pub fn fresh() -> Recipe
        ensures value { recipe_log result ≡ fresh }
        ensures laid { aside_log result ≡ fresh }
    {
        Recipe {
            rows: [UNSET; 8],
            aside: [UNSET; 8],
        }
    }

    // Gives the parameter limits and a share of outlier cells, in thousandths. They are no `Row` yet: of a share above what
    // a row holds the refusal tells too.
    pub fn limits(&mut self, parameter: u32, low: f32, high: f32, share: u32) -> Result<(), Refusal>
        ensures answer { decision result ≡ decide (limits_checks parameter low high share) }
        ensures after { recipe_log self.new ≡ after_limits (recipe_log self.old) parameter low high share }
        ensures laid { aside_log self.new ≡ aside_log self.old }
    {
        if !(1..=8).contains(&parameter) {
            return Err(Refusal::NoSuchEntry);
        }
        // a share beyond what a row holds is too great as well, but the limits are tested before it
        let share = u16::try_from(share).unwrap_or(u16::MAX);
        let limits = Limits::try_from(Row { low, high, share })?;
        self.rows[parameter as usize - 1] = Row::from(limits);
        Ok(())
    }

    // The entry of the parameter, if it has limits; none too where there is no such parameter.
    pub fn entry(&self, parameter: u32) -> Option<Limits>
        ensures test { is_some result ≡ has_entry (recipe_log self.now).rows parameter }
        ensures value { IfSome result (λ l. plain l ≡ row_of (recipe_log self.now).rows parameter) }
    {
        if !(1..=8).contains(&parameter) {
            return None;
        }
        Limits::try_from(self.rows[parameter as usize - 1]).ok()
    }
}
