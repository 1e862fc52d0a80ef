// Places that the caller lends, since a roll takes no memory of its own: the first `used` hold readings, in recorded order.
// Clauses name the places, and not just those readings: a caller may rely on what the unused ones keep.
ghost use Rattle.std.specs.Prelude.{◌≤◌, length};

use model::reading::Reading;

#[derive(Drop)]
pub(crate) struct Places<'a> {
    pub(crate) all: &'a mut [Reading],
    pub(crate) used: usize,
    // each reading has a place, and there are at most 65,536
    ghost room: { (used ≤ length all.now) × (used ≤ 65536) },
}
