// One call: four numbers decoded, the rule of each code, and the entry.
#![tactic(auto)]

pub mod decoding;
pub mod entry;
mod meetings;
pub mod stepping;

use rules::{Answer, Cell};

// What a process meets of one file: its holder, its content, and the process's own open mark, as the numbers that the store has: a call
// that changes nothing puts the same back, whatever they are (`next_store`), so a mark is no bool here, and a holder no Option.
#[derive(Clone, Copy)]
pub struct Meeting {
    pub holder: u32,
    pub content: Cell,
    pub mark: u8,
}

// What a call looks at: R on the class of its file f, W on the class of the file that it can change; of f whether the
// process has it open, its holder and its content; and what the process meets of the file that it can change.
#[derive(Clone, Copy)]
pub struct Looks {
    pub r: bool,
    pub w: bool,
    pub opened: bool,
    pub holder: u32,
    pub content: Cell,
    pub target: Meeting,
}

// What a call answers, and what its process meets next of the one file that it can change.
#[derive(Clone, Copy)]
pub struct Turn {
    pub answer: Answer,
    pub meeting: Meeting,
}
