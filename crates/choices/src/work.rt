// The work table of planning.
ghost use Rattle.std.specs.Prelude.{◌≡◌, replicate, IfOk};
ghost use Rattle.choices.specs.Table.{empty};

use std::alloc::{AllocError, Global};

// One place: the best choice of ends up to a position, by its sheets, their total, and its last end, for which
// the rules' table has 0 where there is none.
#[derive(Clone, Copy, PartialEq, Eq, Debug)]
pub struct WorkPlace<T> {
    pub sheets: u32,
    pub total: T,
    pub last: u32,
}

impl<T> WorkPlace<T> {
    // The choice of no sheet, whose total is `none`.
    pub fn blank(none: T) -> Self
        ensures { result ≡ empty none }
    {
        WorkPlace {
            sheets: 0,
            total: none,
            last: 0,
        }
    }
}

// A table of so many places, each with no sheet; a roll of P cells needs P + 1.
pub fn table<T: Copy>(heap: Global, none: T, places: usize) -> Result<Vec<WorkPlace<T>>, AllocError>
    ensures { IfOk result (λ v. v.items ≡ replicate places (empty none)) }
{
    // `vec!` clones, and of a clone of any T nothing says that it is the same.
    let mut table = Vec::new(heap);
    for _ in 0..places {
        table.push(WorkPlace::blank(none))?;
    }
    Ok(table)
}
