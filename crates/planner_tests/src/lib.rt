// Plans of small rolls, with the ends and totals that the rules name, and tables and places of all sizes.
#![tactic(auto)]

#[cfg(test)]
mod refusals;
#[cfg(test)]
mod sample;
#[cfg(test)]
mod two;

use choices::work::WorkPlace;
use model::reading::Reading;

// What an unused place holds in these tests, as in the foundation's: a constant that two crates of tests share would be a
// library's.
pub(crate) const BLANK: Reading = Reading {
    parameter: 9,
    position: 9,
    value: 9.0,
};

// What a place of the work table and a place for ends hold before a plan.
pub(crate) const UNUSED: WorkPlace<u32> = WorkPlace {
    sheets: 99,
    total: 99,
    last: 99,
};

pub(crate) const NO_END: u32 = 99;
