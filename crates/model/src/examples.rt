// The worked examples of the rules, computed. Crates above have functions of this kind for theirs: a list of examples is
// no value that a parameter could be.
ghost use Rattle.std.specs.Prelude.{◌≡◌, true};
ghost use Rattle.model.specs.Examples.{examples, holds};

// Whether every worked example comes out as the rules' page says: the checker computes them here.
#[tactic(auto, using(crate::proofs::Computed::all_hold))]
pub fn examples_hold() -> bool
    ensures value { result ≡ holds examples }
    ensures hold { holds examples ≡ true }
{
    true
}
