// The rules of the market as definitions: its faults, its state, the ten calls, and runs of calls.
#![tactic(auto)]

pub mod fault;
pub mod laws;
pub mod lent;
pub mod outcome;
