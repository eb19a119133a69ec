// The gate report: whether all that desk B can hear of desk A passes a gate desk, and else the list of calls that goes around it.
#![tactic(auto)]

pub mod gate;
