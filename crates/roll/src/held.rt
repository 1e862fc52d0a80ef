// What a roll holds, and what always holds of it.
ghost use Rattle.std.specs.Prelude.{◌≤◌, length};
ghost use Rattle.model.specs.Recorded.{Barring, Placed, Rising};
ghost use Rattle.roll.specs.Lent.{Nexts, recorded};

use crate::bars::Bars;
use crate::places::Places;
use model::size::Size;

// The readings and bars of one roll of foil.
#[derive(Drop)]
pub struct Roll<'a> {
    pub(crate) places: Places<'a>,
    pub(crate) size: Size,
    pub(crate) bars: Bars,
    // for each of the eight parameters that the rules allow, in the order of their numbers, the first position beyond its
    // last one
    pub(crate) next: [u16; 8],
    // the cells of the roll and of a sheet, and the parameters, are within their bounds
    ghost foil: { (1 ≤ size.cells) × (size.cells ≤ 32768) },
    ghost piece: { (1 ≤ size.sheet) × (size.sheet ≤ 4096) },
    ghost kinds: { (1 ≤ size.parameters) × (size.parameters ≤ 8) },
    // each reading is of a parameter and at a position of the roll, and in each parameter the positions rise
    ghost placed: { Placed size.cells size.parameters (recorded places) },
    ghost rising: { Rising (recorded places) },
    ghost latest: { Nexts next (recorded places) },
    // at most 64 bars stand, each on cells of the roll
    ghost few: { length bars ≤ 64 },
    ghost barring: { Barring size.cells bars },
}
