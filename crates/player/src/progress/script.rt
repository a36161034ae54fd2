use crate::progress::{Counts, RoundId};
use model::refusal::Refusal;
use verdict::verdict::Verdict;

// A call, with the round that its token names where it takes one.
#[derive(Clone, Copy, Debug, PartialEq, Eq)]
pub enum Call {
    Check,
    Begin,
    Send,
    End(RoundId),
    GiveUp(RoundId),
    Question,
}

// What a call answered that was not refused.
#[derive(Clone, Copy, Debug, PartialEq, Eq)]
pub enum Answer {
    Checked(Verdict),
    Began(RoundId),
    Sent,
    Ended,
    GaveUp,
    Counted(Counts),
}

// A call with the buffer that it is given, and its answer once it was issued.
#[derive(Drop)]
pub struct Turn {
    pub call: Call,
    pub buffer: Vec<u8>,
    pub answer: Option<Result<Answer, Refusal>>,
}

pub mod run;
