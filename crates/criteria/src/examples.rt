// All worked examples, of the rules and of the criteria, computed.
ghost use Rattle.std.specs.Prelude.{◌≡◌, true};
ghost use Rattle.criteria.specs.Examples.{examples};
ghost use Rattle.model.specs.Examples.{holds};

// Whether every worked example comes out as the rules' page says.
#[tactic(auto, using(crate::proofs::Computed::all_hold))]
pub fn criteria_examples_hold() -> bool
    ensures value { result ≡ holds examples }
    ensures hold { holds examples ≡ true }
{
    true
}
