// Walks through one job: records the sample roll, judges its cells and sheets, counts them, and shows some refusals.
#![tactic(auto)]

use criteria::examples::criteria_examples_hold;
use shows::walk::walk_for;
use std::io;

fn main(rt: HostRuntime) -> io::Result<()> {
    walk_for(&rt, &())?;
    println!(rt; "worked examples hold: {}", criteria_examples_hold())
}
