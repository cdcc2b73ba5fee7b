// The table of the live orders, and the book that it stands for.
#![tactic(auto)]

pub mod laws;
mod places;
pub mod table;
