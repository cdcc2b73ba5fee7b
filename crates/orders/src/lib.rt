// Orders: their words, their bounds, their rank, the first of any entries by rank, and the guard of the caller's strip.
#![tactic(auto)]

pub mod bounds;
pub mod laws;
pub mod order;
pub mod rank;
pub mod ranked;
pub mod sides;
pub mod strip;
