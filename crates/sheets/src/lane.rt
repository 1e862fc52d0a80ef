// What is looked up for one parameter: its readings among those of the roll, and its limits.
ghost use Rattle.model.specs.Recorded.{Rising};

use model::reading::Reading;
use recipe::Limits;

// Made anew for each move of a window, since limits lie in no array.
#[derive(Clone, Copy)]
pub(crate) struct Lane<'a> {
    pub(crate) readings: &'a [Reading],
    pub(crate) parameter: u8,
    pub(crate) limits: Limits,
    ghost rising: { Rising readings.now },
}
