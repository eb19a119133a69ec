// The lines of a text as code reads them: a cursor goes over the bytes once, field by field. What is found is handed
// out with the cursor after it and its stop. A cursor is a number, beside the text: in a struct with it each clause would say once more that
// the text stayed the same.
#![tactic(auto)]

pub mod parts;
pub mod shapes;
pub mod stop;
pub mod words;

// The numbers of a header line.
#[derive(Clone, Copy)]
pub struct Counts {
    pub desks: u32,
    pub classes: u32,
    pub processes: u32,
    pub files: u32,
}

// The numbers of an access line.
#[derive(Clone, Copy)]
pub struct Access {
    pub desk: u32,
    pub class: u32,
    pub right: u32,
}

// Two numbers that end a line: of a process line its number and its desk, of a file line its number and its class.
#[derive(Clone, Copy)]
pub struct Pair {
    pub first: u32,
    pub second: u32,
}
