// Calls as data: a list of them is replayed from the start, and each gets its answer.
#![tactic(auto)]

pub mod answer;
pub mod call;
mod making;
pub mod one_of;
pub mod replaying;
pub mod unplayed;

pub use replaying::replay;
