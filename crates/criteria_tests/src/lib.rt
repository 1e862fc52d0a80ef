// Criteria from outside the library: a later criterion needs nothing but the trait.
#![tactic(auto)]

#[cfg(test)]
mod delivered;
pub mod indifferent;
#[cfg(test)]
mod outside;
pub mod squares;
