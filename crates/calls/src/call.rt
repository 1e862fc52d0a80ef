// The calls of a job, after the one that sets the roll.

// A call that records on the roll.
#[derive(Clone, Copy, Debug)]
pub enum Recording {
    Reading {
        parameter: u32,
        position: u32,
        value: f32,
    },
    Withdraw {
        parameter: u32,
    },
    Bar {
        from: u32,
        to: u32,
    },
}

// Each plan has its own criterion, and a work table and places for ends of its own sizes.
#[derive(Drop, Debug)]
pub enum Call<C> {
    Record(Recording),
    Limits {
        parameter: u32,
        low: f32,
        high: f32,
        share: u32,
    },
    Count,
    Plan {
        criterion: C,
        work: usize,
        ends: usize,
    },
}

// A call, or a trial with the calls that are made while it stands.
#[derive(Drop)]
pub enum Step<C> {
    Call(Call<C>),
    Trial(Vec<Call<C>>),
}
