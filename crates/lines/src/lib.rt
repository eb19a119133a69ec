// What reading a text answers. The line rules are in specs/, their laws in proofs/; a crate above has the code.
#![tactic(auto)]

use rules::{Refusal, Setup};

// The setup of a text that is read, and the number of its calls.
#[derive(Clone, Copy)]
pub struct GivenText {
    pub setup: Setup,
    pub calls: u32,
}

// What a text is refused with, and the offset of the faulty line.
#[derive(Clone, Copy, Debug, PartialEq, Eq)]
pub struct Fault {
    pub refusal: Refusal,
    pub at: usize,
}
