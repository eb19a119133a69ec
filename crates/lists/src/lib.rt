// Lists of calls over lent runs of numbers.
#![tactic(auto)]

pub mod running;
pub mod writing;

use rules::{Refusal, Store};

// How many numbers an answer takes.
pub const ANSWER_WIDTH: usize = 2;

// The number of calls run, or the refusal for which none was; and the next store. No type of both with `Called`, which `called` and `ran` of
// specs/ and the machine of views answer.
#[derive(Clone, Copy)]
pub struct Listed {
    pub answer: Result<u32, Refusal>,
    pub store: Store,
}
