// Attempts and rounds over the order table.
#![tactic(auto)]

pub mod active;
pub mod attempt;
pub mod laws;
mod listed;
mod listing;
mod plan;
mod ready;
pub mod rounds;
mod walk;
