// An entry with limits, and what always holds of it.
ghost use Rattle.std.specs.Float.Ieee.{le};
ghost use Rattle.std.specs.Prelude.{◌≡◌, ◌≤◌, true};
ghost use Rattle.std.specs.Float.{float_is_finite};

// Limits of one parameter: made from a row that passed the check, so each value of this type keeps the rule.
#[derive(Clone, Copy)]
pub struct Limits {
    pub(crate) low: f32,
    pub(crate) high: f32,
    pub(crate) share: u16,
    ghost ends: { (float_is_finite low ≡ true) × (float_is_finite high ≡ true) },
    ghost order: { le low high ≡ true },
    ghost part: { share ≤ 1000 },
}
