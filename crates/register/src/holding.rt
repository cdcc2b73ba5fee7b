// The last account and the last issue that a pair may name.
pub const LAST_ACCOUNT: u64 = 999_999;

pub const LAST_ISSUE: u64 = 16;

// One row of a register: an open pair of an account and an issue, with its free and held shares.
#[derive(Clone, Copy, PartialEq, Eq, Debug)]
pub struct Row {
    pub account: u64,
    pub issue: u64,
    pub free: u64,
    pub held: u64,
}
