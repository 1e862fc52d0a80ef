// Sheets: the verdict of a cell, the outlier counts of a sheet, good sheets, and the greatest number of them.
// What is asked takes a roll and a recipe side by side: each is changed by calls of its own between two questions, so that a
// struct of both would be made anew for each.
#![tactic(auto)]

mod bars;
pub mod counting;
mod gauge;
pub mod judged;
pub mod judging;
mod lane;
pub mod scan;
pub mod scanning;
mod search;
mod window;

pub use counting::count;
pub use judging::{sheet, verdict};
pub use scan::Scan;
