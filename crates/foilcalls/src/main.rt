// Reads a script of calls from standard input, replays it, and prints an answer for each call.
#![tactic(auto)]

mod named;
mod script;
mod showing;
mod words;

use anyhow::anyhow;
use calls::replay;
use calls::unplayed::Unplayed;
use script::{Script, Trouble};
use showing::{show_refusal, show_reply};
use std::io::Read;

// The calls of a script that is well formed.
fn play(rt: &HostRuntime, script: &Script) -> anyhow::Result<()> {
    let replies = replay(
        rt.alloc(),
        script.places,
        script.new.cells,
        script.new.sheet,
        script.new.parameters,
        &script.steps,
    );
    match replies {
        Ok(replies) => {
            println!(rt; "accepted")?;
            for reply in &replies {
                show_reply(rt, reply)?;
            }
            Ok(())
        }
        Err(Unplayed::NewRefused(refusal)) => show_refusal(rt, refusal),
        Err(Unplayed::OutOfMemory) => Err(anyhow!("out of memory")),
    }
}

fn main(rt: HostRuntime) -> anyhow::Result<()> {
    let mut text = String::new(rt.alloc());
    rt.stdin().read_to_string(&mut text)?;
    match script::read(rt.alloc(), &text) {
        Ok(script) => play(&rt, &script),
        Err(Trouble::Off { line, message }) => {
            println!(rt; "line {line}: {message}")?;
            Ok(())
        }
        Err(Trouble::OutOfMemory) => Err(anyhow!("out of memory")),
    }
}
