// Who takes part at a price, and its B and S.
ghost use Rattle.std.specs.Prelude.{◌≡◌, ◌<◌, ◌≤◌, filter};
ghost use Rattle.orders.specs.Rank.{first_by, ahead};
ghost use Rattle.book.specs.Table.{book_of, at_place};
ghost use Rattle.opening.specs.Opening.{takes_part, share, quantity_at};

use book::table::Table;
use orders::order::{Order, Side};
use orders::strip::PLACES;

// A price of an issue.
#[derive(Clone, Copy, PartialEq, Eq, Debug)]
pub struct Level {
    pub issue: u64,
    pub price: u64,
}

impl Level {
    // A working plain order of the issue on the side whose limit the price meets.
    fn takes_part(self, o: &Order, side: Side) -> bool
        ensures { result ≡ takes_part self.issue self.price side o.now }
    {
        o.is_plain_in(self.issue, side) && side.is_within(o.price, self.price)
    }

    // The best-ranked order of the side that takes part.
    pub fn best(self, table: &Table, side: Side) -> Option<Order>
        ensures { result ≡ first_by ahead (filter (takes_part self.issue self.price side) (book_of table.now)) }
    {
        table.best(|o| self.takes_part(o, side))
    }

    // What the order at a place has left, if it takes part.
    fn share(self, table: &Table, place: usize, side: Side) -> u64
        ensures share { result ≡ share self.issue self.price side (at_place table.now place) }
        ensures small { result ≤ 100000000 }
    {
        table
            .get(place)
            .filter(|o| self.takes_part(o, side))
            .map_or(0, |o| o.left)
    }

    // B of the price on the buy side, S on the sell side.
    pub fn quantity(self, table: &Table, side: Side) -> u64
        ensures { result ≡ quantity_at self.issue self.price side (book_of table.now) }
    {
        (0..PLACES)
            .map(|place| self.share(table, place, side))
            .sum()
    }
}
