// The types of the store, its sizes, and the kinds of what becomes of a list, text, grid or report. The rules over them are in specs/, their
// laws in proofs/; crates above have the code.
#![tactic(auto)]

mod crossing;
mod given;
mod operation;
mod refusal;

pub use crossing::{Kind, Numbered};
pub use operation::Operation;
pub use refusal::Refusal;

// The least and the most of each thing.
pub const LEAST: u32 = 1;

pub const DESKS: usize = 16;

pub const CLASSES: usize = 16;

pub const PROCESSES: usize = 64;

pub const FILES: usize = 32;
// The most calls in a list; the least is none.
pub const CALLS: usize = 1024;
// How many numbers a call takes.
pub const CALL_WIDTH: usize = 4;
// Rights lie at desk * CLASSES + class, whatever the counts are.
pub const RIGHTS: usize = DESKS * CLASSES;
// Open marks lie at file * PROCESSES + process, whatever the counts are.
pub const MARKS: usize = FILES * PROCESSES;

// A right is none, R, W or both: bytes, as C hands them in and `Setup` holds them for it.
pub const R: u8 = 1;

pub const W: u8 = 2;

pub const BOTH: u8 = 3;

// The kind of a list that was run, a text that was read or a grid that was filled; and those of a report that shows nothing and of one that
// shows a list, which for a gate are "guarded" and "unguarded". No enums: they would hold Refused once more each, and nothing but C reads them.
pub const KIND_DONE: u32 = 0;

pub const KIND_NO_ROUTE: u32 = 0;

pub const KIND_ROUTE: u32 = 1;

#[repr(C)]
#[derive(Clone, Copy, PartialEq, Eq)]
pub struct Setup {
    pub desks: u32,
    pub classes: u32,
    pub processes: u32,
    pub files: u32,
    pub rights: [u8; RIGHTS],
    // The desk of each process, and the class of each file.
    pub desk: [u8; PROCESSES],
    pub class: [u8; FILES],
}

// What a file holds: a figure, and the written mark, which is 1 in a written file and 0 in an unwritten one. C lays it out so, and any
// mark can be handed in, so it is no Option.
#[repr(C)]
#[derive(Clone, Copy, PartialEq, Eq)]
pub struct Cell {
    pub figure: u32,
    pub written: u32,
}

// What an unwritten file holds.
pub const UNWRITTEN: Cell = Cell {
    figure: 0,
    written: 0,
};

// For each file who has it locked, what it holds, and who has it open.
#[repr(C)]
#[derive(Clone, Copy, PartialEq, Eq)]
pub struct Store {
    // 0 for unlocked, else the process plus one: a number that C lays out, and any can be handed in.
    pub holders: [u32; FILES],
    pub cells: [Cell; FILES],
    // 1 where the process has the file open, else 0; any byte can be handed in.
    pub marks: [u8; MARKS],
}

// A call as numbers: its operation, process p, file f and extra x. CALL_WIDTH counts them.
#[derive(Clone, Copy, Debug, PartialEq, Eq)]
pub struct Numbers {
    pub operation: u32,
    pub process: u32,
    pub file: u32,
    pub extra: u32,
}

// A call of process p on file f; the third number is WRITE's figure, and the file that COPY changes.
#[derive(Clone, Copy, Debug, PartialEq, Eq)]
pub enum Call {
    Read(u32, u32),
    Write(u32, u32, u32),
    Lock(u32, u32),
    Unlock(u32, u32),
    Open(u32, u32),
    Close(u32, u32),
    Testlock(u32, u32),
    Copy(u32, u32, u32),
}

// A refusal is its number here, as `answer_of` of specs/ says for every two numbers of a run.
#[derive(Clone, Copy, Debug, PartialEq, Eq)]
pub enum Answer {
    Nothing,
    Figure(u32),
    Yes,
    No,
    Refused(u32),
}

// An accepted setup as C is handed it: the number 0 beside it; or a refusal's number, and the blank setup beside that.
#[repr(C)]
#[derive(Clone, Copy)]
pub struct GivenSetup {
    pub refusal: u32,
    pub setup: Setup,
}

// A fresh store in the same way, in a type of its own, as C has no generics; beside a refusal's number stands a store that fits no setup.
#[repr(C)]
#[derive(Clone, Copy)]
pub struct GivenStore {
    pub refusal: u32,
    pub store: Store,
}

// What a call answers, and the next store.
#[derive(Clone, Copy)]
pub struct Called {
    pub answer: Answer,
    pub store: Store,
}
