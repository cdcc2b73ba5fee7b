// The best-ranked order that passes a test.
ghost use Rattle.std.specs.Prelude.{◌≡◌, ◌<◌, Bool, filter};
ghost use Rattle.std.specs.Fn.{FnReturnsAt};
ghost use Rattle.orders.specs.declared.order.Order.{Order};
ghost use Rattle.orders.specs.Rank.{first_by, ahead};
ghost use Rattle.orders.specs.Search.{passing};
ghost use Rattle.orders.specs.Book.{best_opposite};
ghost use Rattle.book.specs.Table.{book_of, at_place};

use super::Table;
use orders::order::{Order, Side};
use orders::ranked::first;
use orders::strip::PLACES;

impl Table {
    pub fn best<F: Fn(&Order) -> bool>(&self, test: F) -> Option<Order>
        requires { F.IsAlwaysCallable test }
        ensures { (p : Order → Bool) → ((o : Order) (b : Bool) → FnReturnsAt F.Fn test o b → b ≡ p o) → result ≡ first_by ahead (filter p (book_of self.now)) }
    {
        let look = |place: usize| -> Option<Order>
            requires { F.IsAlwaysCallable test }
            ensures { (p : Order → Bool) → ((o : Order) (b : Bool) → FnReturnsAt F.Fn test o b → b ≡ p o) → result ≡ passing p (at_place self.entry.now place) }
        {
            let o = self.get(place)?;
            test(&o).then_some(o)
        };
        first(PLACES, look).map(|(_, o)| o)
    }

    // The best-ranked working order opposite.
    pub fn best_opposite(&self, issue: u64, side: Side) -> Option<Order>
        ensures { result ≡ best_opposite issue side (book_of self.now) }
    {
        self.best(|o| o.is_working_opposite(issue, side))
    }
}
