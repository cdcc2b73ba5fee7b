// The rank of orders.
ghost use Rattle.std.specs.Prelude.{◌≡◌};
ghost use Rattle.orders.specs.Rank.{ahead, earlier};
ghost use Rattle.orders.specs.Ranks.{ahead_ranks};
ghost use Rattle.std.proofs.lemmas.List.MinMax.{IsStrictWeakOrder-by_number};
ghost use Rattle.orders.specs.declared.rank.Stamped.{Stamped};

use crate::order::{Order, Side};
use crate::ranked::Ranked;

impl Order {
    pub fn is_earlier(&self, other: &Order) -> bool
        ensures { result ≡ earlier self.now other.now }
    {
        self.stamp < other.stamp
    }
}

impl Ranked for Order {
    ghost before = { ahead };

    ghost ranks = { ahead_ranks };

    // Buys before sells, on one side the better price, then plain before special, then the earlier stamp. Each is asked only where those before it are equal.
    fn precedes(&self, other: &Order) -> bool {
        if self.side != other.side {
            return self.side < other.side;
        }
        let by_price = match self.side {
            Side::Buy => other.price.cmp(&self.price),
            Side::Sell => self.price.cmp(&other.price),
        };
        by_price
            .then_with(|| self.term.is_special().cmp(&other.term.is_special()))
            .then_with(|| self.stamp.cmp(&other.stamp))
            .is_lt()
    }
}

// An order that ranks by its stamp alone.
#[derive(Clone, Copy, PartialEq, Eq, Debug)]
pub struct Stamped {
    pub order: Order,
}

impl Ranked for Stamped {
    ghost before = { λ x y. earlier x.order y.order };

    ghost ranks = { IsStrictWeakOrder-by_number (λ (x : Stamped). x.order.stamp) };

    fn precedes(&self, other: &Stamped) -> bool {
        self.order.is_earlier(&other.order)
    }
}
