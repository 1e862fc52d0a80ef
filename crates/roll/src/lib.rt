// The roll: readings and bars as they are recorded, over places that the caller lends.
#![tactic(auto)]

mod bars;
pub mod held;
mod places;
pub mod queries;
mod readings;
pub mod recording;

pub use held::Roll;
