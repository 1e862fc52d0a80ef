// The worked examples of the rules, computed.
ghost use Rattle.std.specs.Prelude.{◌≡◌, true};
ghost use Rattle.choices.specs.Examples.{Plans, examples};
ghost use Rattle.model.specs.Examples.{holds};

// Whether every worked example comes out as the rules' page says; those of plans are the best of all choices.
#[tactic(auto, using(crate::proofs::Computed::all_hold, crate::proofs::Computed::plans_are_best))]
pub fn examples_hold() -> bool
    ensures value { result ≡ holds examples }
    ensures hold { holds examples ≡ true }
    ensures plans { Plans }
{
    true
}
