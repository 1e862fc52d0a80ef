// Examples of recording, judging and counting, with what the rules say of each.
#![tactic(auto)]

#[cfg(test)]
mod limits;
#[cfg(test)]
mod places;
#[cfg(test)]
mod recording;
#[cfg(test)]
mod sample;
#[cfg(test)]
mod two;

use model::reading::Reading;
use model::refusal::Refusal;

// What an unused place holds in these tests, so that a place that is written shows.
pub(crate) const BLANK: Reading = Reading {
    parameter: 9,
    position: 9,
    value: 9.0,
};

// The number of the refusal, or 0 for an accepted call: the tables of these tests have the rules' numbers.
pub(crate) fn number(answer: Result<(), Refusal>) -> u8 {
    answer.err().map_or(0, |refusal| refusal.number())
}
