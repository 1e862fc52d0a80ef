// Answers of calls.
use model::refusal::Refusal;
use planner::Planned;

// What a call that is accepted answers; the ends of a plan are given with it.
#[derive(Drop)]
pub enum Answer<T> {
    Accepted,
    Counted { sheets: u32, looks: u32 },
    Planned { plan: Planned<T>, ends: Vec<u32> },
}

// A call's answer, or why it is refused.
pub type Reply<T> = Result<Answer<T>, Refusal>;
