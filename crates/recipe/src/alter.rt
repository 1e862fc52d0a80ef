// What a recipe itself and a trial on one are alike in.
ghost use Rattle.std.specs.Prelude.{◌≡◌, ⊤, refl};
ghost use Rattle.model.specs.Recipes.{after_limits, limits_checks};
ghost use Rattle.model.specs.Refusals.{decide, decision};
ghost use Rattle.recipe.specs.Tables.{aside_log, recipe_log};

use crate::table::Recipe;
use crate::trial::Trial;
use model::refusal::Refusal;

// Limits may be set in it, and it is read as a recipe.
pub trait Alter {
    ghost use Rattle.recipe.specs.declared.table.Recipe.{Recipe};

    // the recipe as it stands
    ghost recipe: { Self → Recipe };

    // both are over the same recipe
    ghost keeps: { Self → Self → Type 0 };

    // Gives the parameter limits and a share of outlier cells, in thousandths. Its facts stand on each type's own call too,
    // which is what a caller finds first.
    fn limits(&mut self, parameter: u32, low: f32, high: f32, share: u32) -> Result<(), Refusal>
        ensures answer { decision result ≡ decide (limits_checks parameter low high share) }
        ensures after { recipe_log (recipe self.new) ≡ after_limits (recipe_log (recipe self.old)) parameter low high share }
        ensures laid { aside_log (recipe self.new) ≡ aside_log (recipe self.old) }
        ensures kept { keeps self.old self.new };

    // The recipe, to count and plan by.
    fn recipe(&self) -> &Recipe
        ensures { result.now ≡ recipe self.now };

    // where nothing is altered, the recipe is the same
    ghost stays: { (s : Self) → keeps s s };
}

impl Alter for Recipe {
    ghost recipe = { λ r. r };

    ghost keeps = { λ r s. ⊤ };

    ghost stays = { λ r. tt };

    fn limits(&mut self, parameter: u32, low: f32, high: f32, share: u32) -> Result<(), Refusal> {
        Recipe::limits(self, parameter, low, high, share)
    }

    fn recipe(&self) -> &Recipe {
        self
    }
}

impl Alter for Trial<'_> {
    ghost recipe = { λ t. t.recipe.now };

    ghost keeps = { λ t u. t.recipe.ghost_name ≡ u.recipe.ghost_name };

    ghost stays = { λ t. refl };

    fn limits(&mut self, parameter: u32, low: f32, high: f32, share: u32) -> Result<(), Refusal> {
        Trial::limits(self, parameter, low, high, share)
    }

    fn recipe(&self) -> &Recipe {
        Trial::recipe(self)
    }
}
