// How desks reach each other: the process a desk acts by, the file a link uses, the table of links, and in how few links a desk is reached.
#![tactic(auto)]

pub mod acts;
pub mod leading;
pub mod linking;
pub mod nearing;
mod searching;
