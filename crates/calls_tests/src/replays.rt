// What new refuses, and a trial between two counts.
use calls::answer::{Answer, Reply};
use calls::call::{Call, Recording, Step};
use calls::replay;
use calls::unplayed::Unplayed;
use criteria::tally::{Classes, Tally};
use std::alloc::Global;
use std::test::Fail;

// The number by which new is refused, and 0 where it is accepted: the table below has the rules' numbers.
fn number(heap: Global, cells: u32, sheet: u32, parameters: u32) -> Result<u8, Fail> {
    let steps: [Step<Tally>; 0] = [];
    match replay(heap, 3, cells, sheet, parameters, &steps) {
        Ok(_) => Ok(0),
        Err(Unplayed::NewRefused(refusal)) => Ok(refusal.number()),
        Err(Unplayed::OutOfMemory) => Err(Fail::new("out of memory")),
    }
}

#[test]
fn new_is_refused_by_its_sizes(rt: HostRuntime) -> Result<(), Fail> {
    for (cells, sheet, parameters, refused) in [
        (10, 3, 1, 0),
        (32768, 4096, 8, 0),
        (10, 3, 0, 1),
        (0, 0, 9, 1),
        (0, 0, 8, 2),
        (32769, 3, 1, 2),
        (10, 0, 1, 3),
        (10, 4097, 1, 3),
    ] {
        assert_eq!(rt; number(rt.alloc(), cells, sheet, parameters)?, refused);
    }
    Ok(())
}

fn limits(share: u32) -> Call<Tally> {
    Call::Limits {
        parameter: 1,
        low: 1.0,
        high: 2.0,
        share,
    }
}

fn sheets(reply: &Reply<Classes>) -> Option<u32> {
    match reply {
        Ok(Answer::Counted { sheets, looks: _ }) => Some(*sheets),
        _ => None,
    }
}

// One outlier in two cells: sheets of one cell are two with a share of 1000, and one with a share of 0.
#[test]
fn a_trial_is_gone_at_its_end(rt: HostRuntime) -> Result<(), Fail> {
    let heap = rt.alloc();
    let spot = Recording::Reading {
        parameter: 1,
        position: 0,
        value: 3.0,
    };
    let fine = Recording::Reading {
        parameter: 1,
        position: 2,
        value: 1.5,
    };
    let mut steps = Vec::new(heap);
    steps.push(Step::Call(limits(1000)))?;
    steps.push(Step::Call(Call::Record(spot)))?;
    steps.push(Step::Call(Call::Record(fine)))?;
    steps.push(Step::Call(Call::Count))?;
    let mut trial = Vec::new(heap);
    trial.push(limits(0))?;
    trial.push(Call::Count)?;
    steps.push(Step::Trial(trial))?;
    steps.push(Step::Call(Call::Count))?;
    let Ok(replies) = replay(heap, 2, 2, 1, 1, &steps) else {
        return Err(Fail::new("replayed"));
    };
    assert!(rt; replies.len() == 9);
    assert_eq!(rt; sheets(&replies[3]), Some(2));
    assert_eq!(rt; sheets(&replies[6]), Some(1));
    assert_eq!(rt; sheets(&replies[8]), Some(2));
    Ok(())
}
