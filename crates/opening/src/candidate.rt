// A candidate for the opening price.
ghost use Rattle.opening.specs.Opening.{wins};
ghost use Rattle.opening.specs.Prices.{wins_ranks};

use orders::ranked::Ranked;

// A price and its figures: what would trade, what would be left over, how far it is from the previous close.
#[derive(Clone, Copy, PartialEq, Eq, Debug)]
pub struct Candidate {
    pub price: u64,
    pub matched: u64,
    pub surplus: u64,
    pub away: u64,
}

impl Ranked for Candidate {
    ghost before = { wins };

    ghost ranks = { wins_ranks };

    // Most matched, then least surplus, then nearest to the previous close, then the higher price.
    fn precedes(&self, other: &Candidate) -> bool {
        other
            .matched
            .cmp(&self.matched)
            .then(self.surplus.cmp(&other.surplus))
            .then(self.away.cmp(&other.away))
            .then(other.price.cmp(&self.price))
            .is_lt()
    }
}
