// One live order changed in its place.
ghost use Rattle.std.specs.Prelude.{◌≡◌, true, false, is_some, unwrap_or, IfSome};
ghost use Rattle.orders.specs.Orders.{Bounded};
ghost use Rattle.orders.specs.Book.{stamp_of, changed, amended, suspended, resumed};
ghost use Rattle.book.specs.Places.{book, Under};

use super::Places;
use orders::order::{Order, Term};

// Each writes the order whole: a closure that changes it would owe its number, its bounds and its stamp in as many clauses again.
impl Places {
    // Takes an order out of work.
    pub fn suspend(&mut self, number: u64)
        ensures { book self.new.slots ≡ changed number suspended (book self.old.slots) }
    {
        if let Some(o) = self.order(number) {
            self.replace(Order {
                working: false,
                ..o
            });
        }
    }

    // Puts an order back to work, with a stamp above all others.
    pub fn resume(&mut self, number: u64, stamp: u64)
        requires { Under stamp_of stamp (book self.old.slots) }
        ensures { book self.new.slots ≡ changed number (resumed stamp) (book self.old.slots) }
    {
        if let Some(o) = self.order(number) {
            self.replace(Order {
                working: true,
                stamp,
                ..o
            });
        }
    }

    // Sets quantity left, price and term of an order, and its stamp if there is a new one.
    pub fn amend(&mut self, number: u64, quantity: u64, price: u64, term: Term, fresh: Option<u64>)
        requires bounds { Bounded price quantity term }
        requires stamp { IfSome fresh (λ k. Under stamp_of k (book self.old.slots)) }
        ensures { book self.new.slots ≡ changed number (amended quantity price term (is_some fresh) (unwrap_or fresh 0)) (book self.old.slots) }
    {
        if let Some(o) = self.order(number) {
            self.replace(Order {
                price,
                left: quantity,
                term,
                stamp: fresh.unwrap_or(o.stamp),
                ..o
            });
        }
    }
}
