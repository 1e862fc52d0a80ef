// The words of the subject: readings, bars, recipe rows, verdicts and refusals, with the rules over them in specs/.
#![tactic(auto)]

pub mod bar;
pub mod examples;
pub mod reading;
pub mod refusal;
pub mod row;
pub mod size;
pub mod verdict;
