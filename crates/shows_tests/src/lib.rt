// What the programs share, for one that ends with any error: what it is shown, and that its error ends the walk.
#![tactic(auto)]

#[cfg(test)]
mod ending;
