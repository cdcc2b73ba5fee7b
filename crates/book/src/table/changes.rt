// What changes the table.
ghost use Rattle.std.specs.Prelude.{◌≡◌, ◌+◌, ◌<◌, ◌≤◌, true, false, [], ◌∷◌, ◌++◌, length, IfNone, if◌then◌else◌};
ghost use Rattle.orders.specs.Orders.{Bounded};
ghost use Rattle.orders.specs.Book.{find, placed, changed, amended, suspended, resumed, without, first_then, reduced, after_trade};
ghost use Rattle.book.specs.Table.{book_of};

use super::{Given, Table};
use crate::places::Places;
use orders::order::{Entry, Order, Term, Trade};

impl Table {
    pub fn new() -> Table
        ensures book { book_of result ≡ [] }
        ensures number { result.given.number ≡ 0 }
        ensures stamp { result.given.stamp ≡ 0 }
    {
        Table {
            places: Places::new(),
            given: Given {
                number: 0,
                stamp: 0,
            },
        }
    }

    // Places an order under the next number and stamp, and answers its number.
    // Price, quantity and term are no checked value of one type: an entry holds two of them already, and would be taken apart for it.
    pub fn place(&mut self, entry: Entry, price: u64) -> u64
        requires room { length (book_of self.old) < 256 }
        requires stamp { self.old.given.stamp < 1000000 }
        requires bounds { Bounded price entry.quantity entry.term }
        ensures given { result ≡ self.old.given.number + 1 }
        ensures book { book_of self.new ≡ book_of self.old ++ (placed entry price (self.old.given.number + 1) (self.old.given.stamp + 1) ∷ []) }
        ensures live { length (book_of self.new) ≡ length (book_of self.old) + 1 }
        ensures number { self.new.given.number ≡ self.old.given.number + 1 }
        ensures stamp { self.new.given.stamp ≡ self.old.given.stamp + 1 }
    {
        self.given.number += 1;
        self.given.stamp += 1;
        let Given { number, stamp } = self.given;
        let Entry {
            account,
            issue,
            side,
            quantity,
            term,
            ..
        } = entry;
        self.places.add(Order {
            number,
            account,
            issue,
            side,
            price,
            left: quantity,
            term,
            stamp,
            working: true,
        });
        number
    }

    // Sets quantity left, price and term of an order, and gives it the next stamp if `again`: no Option, since that stamp is the table's own.
    pub fn amend(&mut self, number: u64, quantity: u64, price: u64, term: Term, again: bool)
        requires bounds { Bounded price quantity term }
        requires stamp { again ≡ true → self.old.given.stamp < 1000000 }
        ensures book { book_of self.new ≡ changed number (amended quantity price term again (self.old.given.stamp + 1)) (book_of self.old) }
        ensures live { length (book_of self.new) ≡ length (book_of self.old) }
        ensures number { self.new.given.number ≡ self.old.given.number }
        ensures stamp { self.new.given.stamp ≡ (if again then self.old.given.stamp + 1 else self.old.given.stamp) }
    {
        let fresh = again.then_some(self.given.stamp + 1);
        self.places.amend(number, quantity, price, term, fresh);
        self.given.stamp = fresh.unwrap_or(self.given.stamp);
    }

    // Takes an order out of work.
    pub fn suspend(&mut self, number: u64)
        ensures book { book_of self.new ≡ changed number suspended (book_of self.old) }
        ensures live { length (book_of self.new) ≡ length (book_of self.old) }
        ensures given { self.new.given ≡ self.old.given }
    {
        self.places.suspend(number);
    }

    // Puts an order back to work, with the next stamp.
    pub fn resume(&mut self, number: u64)
        requires { self.old.given.stamp < 1000000 }
        ensures book { book_of self.new ≡ changed number (resumed (self.old.given.stamp + 1)) (book_of self.old) }
        ensures live { length (book_of self.new) ≡ length (book_of self.old) }
        ensures number { self.new.given.number ≡ self.old.given.number }
        ensures stamp { self.new.given.stamp ≡ self.old.given.stamp + 1 }
    {
        self.given.stamp += 1;
        self.places.resume(number, self.given.stamp);
    }

    // Ends the order of this number.
    pub fn remove(&mut self, number: u64) -> Option<Order>
        ensures order { result ≡ find number (book_of self.old) }
        ensures book { book_of self.new ≡ without number (book_of self.old) }
        ensures live { length (book_of self.new) ≤ length (book_of self.old) }
        ensures given { self.new.given ≡ self.old.given }
    {
        self.places.remove(number)
    }

    // Takes the order of the lowest number out.
    pub fn take_first(&mut self) -> Option<Order>
        ensures book { book_of self.old ≡ first_then result (book_of self.new) }
        ensures none { IfNone result (book_of self.old ≡ []) }
        ensures given { self.new.given ≡ self.old.given }
    {
        self.places.take_first()
    }

    // The order of this number trades q; where none has the number, nothing changes.
    pub fn take(&mut self, number: u64, q: u64)
        ensures book { book_of self.new ≡ reduced number q (book_of self.old) }
        ensures live { length (book_of self.new) ≤ length (book_of self.old) }
        ensures given { self.new.given ≡ self.old.given }
    {
        self.places.take(number, q);
    }

    // Makes a trade: its sell has so many shares less left, then its buy.
    pub fn trade(&mut self, t: &Trade)
        ensures book { book_of self.new ≡ after_trade t.now (book_of self.old) }
        ensures given { self.new.given ≡ self.old.given }
    {
        self.take(t.sell, t.quantity);
        self.take(t.buy, t.quantity);
    }
}
