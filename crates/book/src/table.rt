// The order table: the places, with the last number and the last stamp given.
ghost use Rattle.std.specs.Prelude.{◌+◌, ◌≤◌};
ghost use Rattle.orders.specs.Book.{number_of, stamp_of};
ghost use Rattle.book.specs.Places.{book, Under};

use crate::places::Places;

mod best;
mod changes;
mod questions;

// Clauses say 1000000 in digits, so that they bind this number too.
const LAST_STAMP: u64 = 1_000_000;

// The last number and the last stamp given. A call that gives neither says so in one clause: that is a fact of the call, so no invariant of the table can say it.
#[derive(Clone, Copy, PartialEq, Eq, Debug)]
pub struct Given {
    number: u64,
    stamp: u64,
}

// No live order has a number or a stamp above the last given.
// It has no model: a view of the book alone would hide the places, which callers see too, as those that the strip marks.
#[derive(Drop)]
pub struct Table {
    places: Places,
    given: Given,
    ghost numbers: { given.number ≤ given.stamp },
    ghost stamps: { given.stamp ≤ 1000000 },
    ghost numbered: { Under number_of (given.number + 1) (book places.slots) },
    ghost stamped: { Under stamp_of (given.stamp + 1) (book places.slots) },
}
