// The market: ten calls over a register of any kind, which the market holds as long as it stands.
#![tactic(auto)]

use board::Board;
use register::contract::Register;

pub mod calls;
mod following;
pub mod questions;
pub mod sequence;
pub mod session;
mod settling;
pub mod setup;
mod trading;

// The register, which nothing else can touch meanwhile, and the market's own records.
#[derive(Drop)]
pub struct Market<'r, R: Register> {
    register: &'r mut R,
    board: Board,
}
