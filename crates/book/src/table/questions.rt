// What the table answers.
ghost use Rattle.std.specs.Prelude.{◌≡◌, ◌<◌, ◌≤◌, length};
ghost use Rattle.orders.specs.Orders.{never_given, stamps_out};
ghost use Rattle.orders.specs.Book.{find};
ghost use Rattle.book.specs.Table.{book_of, at_place};

use super::{LAST_STAMP, Table};
use orders::order::Order;

impl Table {
    // The order at a place.
    pub fn get(&self, place: usize) -> Option<Order>
        ensures { result ≡ at_place self.now place }
    {
        self.places.get(place)
    }

    // The live order of a number.
    pub fn order(&self, number: u64) -> Option<Order>
        ensures { result ≡ find number (book_of self.now) }
    {
        self.places.order(number)
    }

    // How many orders are live.
    pub fn live(&self) -> usize
        ensures count { result ≡ length (book_of self.now) }
        ensures most { result ≤ 256 }
    {
        self.places.live()
    }

    // The number was never given.
    pub fn never_given(&self, number: u64) -> bool
        ensures { result ≡ never_given self.now.given.number number }
    {
        number == 0 || self.given.number < number
    }

    // Every stamp is given.
    pub fn stamps_out(&self) -> bool
        ensures { result ≡ stamps_out self.now.given.stamp }
    {
        LAST_STAMP <= self.given.stamp
    }
}
