// Judging what is handed in: accepting a setup, the fresh store, and whether a setup and a store are sound.
#![tactic(auto)]

pub mod accepting;
pub mod fitting;
pub mod rights;
