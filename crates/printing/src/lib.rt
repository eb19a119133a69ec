// What the program prints: lines of answers, and the line of a refused text.
#![tactic(auto)]

pub mod entry;
mod writing;

use rules::CALLS;

// The most bytes that the program takes.
pub const INPUT: usize = 32768;

// The most bytes of an answer's line: a position below 1,024, a word, a 32-bit number, a tab between each and the next, and an LF.
const LONGEST_LINE: usize = 4 + 1 + 7 + 1 + 10 + 1;

// Every output fits into so many bytes.
pub const OUTPUT: usize = CALLS * LONGEST_LINE;
