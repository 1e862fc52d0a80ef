// The readings that stand in lent places.
ghost use Rattle.std.specs.Prelude.{◌≡◌, ◌<◌, [], ◌∷◌, ◌++◌, length, min, nat_le};
ghost use Rattle.model.specs.Recorded.{Placed};
ghost use Rattle.model.specs.Recording.{beyond};
ghost use Rattle.roll.specs.Lent.{Kept, LatestAt, recorded};
ghost use Rattle.std.specs.List.{remove};

use crate::places::Places;
use model::reading::Reading;

const MOST_READINGS: usize = 65536;

impl<'a> Places<'a> {
    // The readings that stand.
    pub(crate) fn readings(&self) -> &[Reading]
        ensures { result.now ≡ recorded self.now }
    {
        &self.all[..self.used]
    }

    // No place is free, or the roll has as many readings as it takes.
    pub(crate) fn is_full(&self) -> bool
        ensures { result ≡ nat_le (min (length self.now.all.now) 65536) (length (recorded self.now)) }
    {
        self.used >= self.all.len().min(MOST_READINGS)
    }

    // One reading more, behind the others.
    pub(crate) fn push(&mut self, reading: Reading)
        requires { length (recorded self.old) < min (length self.old.all.now) 65536 }
        ensures after { recorded self.new ≡ recorded self.old ++ reading ∷ [] }
        ensures kept { Kept self.old self.new }
    {
        self.all[self.used] = reading;
        self.used += 1;
    }

    // The reading at `place` is taken out, and those behind it move one place forward.
    pub(crate) fn remove(&mut self, place: usize)
        requires { place < length (recorded self.old) }
        ensures after { recorded self.new ≡ remove (recorded self.old) place }
        ensures kept { Kept self.old self.new }
    {
        self.all.copy_within(place + 1..self.used, place);
        self.used -= 1;
    }

    // No reading stands any more.
    pub(crate) fn clear(&mut self)
        ensures after { recorded self.new ≡ [] }
        ensures kept { Kept self.old self.new }
    {
        self.used = 0;
    }
}

// The place of the latest reading of the parameter.
pub(crate) fn latest(readings: &[Reading], parameter: u8) -> Option<usize>
    ensures { LatestAt readings.now parameter result }
{
    readings.iter().rposition(|r| r.parameter == parameter)
}

// The first position beyond the last one of the parameter.
#[tactic(auto, using(crate::proofs::Latest::latest_at))]
pub(crate) fn beyond(readings: &[Reading], parameter: u8) -> u16
    requires { Placed 32768 8 readings.now }
    ensures { result ≡ beyond readings.now parameter }
{
    latest(readings, parameter).map_or(0, |k| readings[k].position + 1)
}
