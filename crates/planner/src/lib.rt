// Planning: the best choice of sheets under a criterion.
#![tactic(auto)]

mod filling;
pub mod planning;

pub use planning::{Planned, Ticket, plan};
