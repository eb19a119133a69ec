// The grid: the number of links from every desk to every desk at once.
#![tactic(auto)]

mod filling;
pub mod grid;
