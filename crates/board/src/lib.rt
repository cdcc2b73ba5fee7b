// The board: what a market keeps beside its register, its questions, and the checks that turn a call down.
#![tactic(auto)]

ghost use Rattle.std.specs.Prelude.{◌≡◌, ◌≤◌, length};

use book::table::Table;
use opening::trades::ISSUES;
use rules::outcome::Phase;

pub mod checks;
pub mod conditions;
mod questions;
mod setup;

// The most records of a tape that a market uses.
pub const MOST_RECORDS: usize = 32_768;

// The previous closes are an array: no heap is used.
// The order table, the phase, the previous closes of the issues from 1 up, and how many records of the tape are used.
#[derive(Drop)]
pub struct Board {
    pub table: Table,
    pub phase: Phase,
    pub closes: [u64; ISSUES],
    pub used: usize,
    ghost short: { used ≤ 32768 },
    ghost long: { length closes ≡ 16 },
}
