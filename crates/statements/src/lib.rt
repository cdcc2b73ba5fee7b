// The statement of a register: its rows read from text, its balances and totals written as text.
#![tactic(auto)]

pub mod read;
pub mod report;
pub mod write;
