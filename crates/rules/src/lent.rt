// What is lent to a call, as far as a refusal depends on it.
#[derive(Clone, Copy, PartialEq, Eq, Debug)]
pub struct Lent {
    // the strip is 256 zero bytes
    pub clean: bool,
    // the length of the tape
    pub room: usize,
}
