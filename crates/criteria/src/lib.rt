// Criteria: what makes one choice of sheets cheaper than another.
#![tactic(auto)]

pub mod criterion;
pub mod examples;
pub mod ladder;
pub mod ranked;
pub mod single;
pub mod tally;
