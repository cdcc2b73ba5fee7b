// The phases of the market, and what an accepted call answers.
ghost use Rattle.std.specs.Prelude.{◌≡◌};

#[derive(Clone, Copy, PartialEq, Eq, Debug)]
pub enum Phase {
    PreOpen,
    Continuous,
    Closed,
}

// The number of the order that the call names, or 0, as the rules answer it; how many trades it made; how many rounds it took.
#[derive(Clone, Copy, PartialEq, Eq, Debug)]
pub struct Outcome {
    pub number: u64,
    pub trades: u64,
    pub rounds: u64,
}

impl Outcome {
    // The answer of a call that names this order, or none where the number is 0, as long as it makes no trade and takes no round.
    pub fn of(number: u64) -> Outcome
        ensures { result ≡ record { number = number; trades = 0; rounds = 0 } }
    {
        Outcome {
            number,
            trades: 0,
            rounds: 0,
        }
    }
}
