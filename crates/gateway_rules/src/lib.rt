// What the calls about one neighbour are: the definitions are in specs/. Here are the types of a verdict on one neighbour.
#![tactic(auto)]

use neighbour::Neighbour;
use neighbour_machine::Reply;

// What becomes of the neighbour's rows: they stay, go, or are replaced by this many of the message's.
#[derive(Clone, Copy)]
pub enum Effect {
    Keep,
    Clear,
    Replace(u16),
}

// 01's answer, the reply, the record after it and what becomes of the rows.
#[derive(Clone, Copy)]
pub struct Verdict {
    pub answer: u8,
    pub reply: Reply,
    pub neighbour: Neighbour,
    pub effect: Effect,
}
