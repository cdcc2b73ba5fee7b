// A register of holdings: what it means, and the movers that any register is made of.
#![tactic(auto)]

pub mod contract;
pub mod fault;
pub mod holding;
pub mod laws;
pub mod movers;
pub mod store;
