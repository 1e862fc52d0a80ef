// Replays of short lists of calls.
#![tactic(auto)]

#[cfg(test)]
mod replays;
