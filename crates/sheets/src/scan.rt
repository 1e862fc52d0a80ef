// A scan along a roll, and what always holds of it.
ghost use Rattle.std.specs.Prelude.{◌≡◌, ◌≤◌, max};
ghost use Rattle.roll.specs.Rolls.{roll_log};

use crate::window::Window;

// Where the scan stands: the window is over the sheet that ends at its position, before the first sheet over that one.
#[derive(Drop)]
pub struct Scan<'a, 'b> {
    pub(crate) window: Window<'a, 'b>,
    pub(crate) position: u16,
    ghost reached: { position ≤ (roll_log window.roll.now).cells },
    ghost end: { window.end ≡ max position (roll_log window.roll.now).sheet },
}
