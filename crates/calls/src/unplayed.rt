// Why a list of steps was not replayed to its end.
ghost use Rattle.std.specs.Prelude.{◌≡◌};
ghost use Rattle.calls.specs.declared.unplayed.Unplayed.TheVariants.{NewRefused, OutOfMemory};

use model::refusal::Refusal;
use std::alloc::AllocError;

// New was refused, so that nothing was made of the rest; or memory was wanting. Nothing is left of the replay in either
// case.
#[derive(Clone, Copy, PartialEq, Eq, Debug)]
pub enum Unplayed {
    NewRefused(Refusal),
    OutOfMemory,
}

impl From<Refusal> for Unplayed {
    ghost from_gives = { λ e r. r ≡ NewRefused e };

    fn from(refusal: Refusal) -> Unplayed {
        Unplayed::NewRefused(refusal)
    }
}

impl From<AllocError> for Unplayed {
    ghost from_gives = { λ _ r. r ≡ OutOfMemory };

    fn from(_e: AllocError) -> Unplayed {
        Unplayed::OutOfMemory
    }
}
