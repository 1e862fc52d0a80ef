// Choices: which of them is best under a criterion, and what a place of the work table tells of one.
#![tactic(auto)]

pub mod examples;
pub mod work;
