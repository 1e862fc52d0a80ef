// Trials: a recipe altered for a while, and then as it was.
ghost use Rattle.std.specs.Prelude.{◌≡◌};
ghost use Rattle.model.specs.Recipes.{after_limits, limits_checks};
ghost use Rattle.model.specs.Refusals.{decide, decision};
ghost use Rattle.recipe.specs.Tables.{aside_log, recipe_log};

use crate::table::Recipe;
use model::refusal::Refusal;

// Stands until it is let go, on whatever way: then the recipe is as it was when the trial began. Contracts name the
// recipe behind the reference as such, since a word for it would be no plainer.
pub struct Trial<'a> {
    recipe: &'a mut Recipe,
}

impl Recipe {
    // Begins a trial.
    pub fn trial<'a>(&'a mut self) -> Trial<'a>
        ensures same { recipe_log result.recipe.now ≡ recipe_log self.old }
        ensures laid { aside_log result.recipe.now ≡ recipe_log self.old }
        ensures lent { result.recipe.ghost_name ≡ self.entry.ghost_name }
    {
        let copy = self.rows;
        self.aside = copy;
        Trial { recipe: self }
    }
}

impl<'a> Trial<'a> {
    // Gives the parameter limits and a share while the trial stands.
    pub fn limits(&mut self, parameter: u32, low: f32, high: f32, share: u32) -> Result<(), Refusal>
        ensures answer { decision result ≡ decide (limits_checks parameter low high share) }
        ensures after { recipe_log self.new.recipe.now ≡ after_limits (recipe_log self.old.recipe.now) parameter low high share }
        ensures laid { aside_log self.new.recipe.now ≡ aside_log self.old.recipe.now }
        ensures lent { self.new.recipe.ghost_name ≡ self.old.recipe.ghost_name }
    {
        self.recipe.limits(parameter, low, high, share)
    }

    // The altered recipe, to count and plan by.
    pub fn recipe(&self) -> &Recipe
        ensures { result.now ≡ self.now.recipe.now }
    {
        self.recipe
    }
}

impl Drop for Trial<'_> {
    fn drop(self)
        ensures back { recipe_log self.exit.0.now ≡ aside_log self.entry.recipe.now }
        ensures laid { aside_log self.exit.0.now ≡ aside_log self.entry.recipe.now }
    {
        let copy = self.recipe.aside;
        self.recipe.rows = copy;
        let Trial { recipe: _ } = self;
    }
}
