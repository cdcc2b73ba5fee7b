// The opening of issues: the opening price and the opening trades.
#![tactic(auto)]

mod candidate;
pub mod laws;
mod level;
pub mod price;
pub mod trades;
