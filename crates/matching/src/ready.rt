// Which of the listed orders are ready.
ghost use Rattle.std.specs.Prelude.{◌≡◌, is_some, filter};
ghost use Rattle.std.specs.Option.{option_map};
ghost use Rattle.orders.specs.Rank.{first_by, ahead, earlier};
ghost use Rattle.orders.specs.Stamps.{stamped};
ghost use Rattle.book.specs.Table.{book_of};
ghost use Rattle.matching.specs.Walk.{first_giving};
ghost use Rattle.matching.specs.Rounds.{any_trade, special_in, on_side, first_ready};
ghost use Rattle.matching.specs.Listing.{facing, attempt_over, ready_over, ready_on, ready_at, readies, first_row};

use crate::listed::Listed;
use crate::listing::Listing;
use crate::walk::{fills, first_to_give};
use orders::order::{Order, Side, Term};
use orders::rank::Stamped;
use orders::ranked::first;

// Some listed order gives the active order a part of at least m.
fn is_given(a: &Order, m: u64, rows: &[Listed]) -> bool
    ensures { result ≡ is_some (first_giving m a.now.left (facing a.now rows.now)) }
{
    first_to_give(a, m, rows).is_some()
}

// The attempt over the listed orders would trade.
fn would_trade(a: &Order, rows: &[Listed]) -> bool
    ensures { result ≡ any_trade (attempt_over a.now rows.now) }
{
    match a.term {
        Term::Plain => is_given(a, 1, rows),
        Term::All => a.left > 0 && fills(a, rows),
        Term::Least(m) => is_given(a, m, rows),
    }
}

fn is_special_in(o: &Order, issue: u64) -> bool
    ensures { result ≡ special_in issue o.now }
{
    o.issue == issue && o.term.is_special() && o.working
}

impl Listing<'_> {
    fn is_ready(&self, o: &Order) -> bool
        ensures { result ≡ ready_over self.now.issue self.now.rows.now o.now }
    {
        is_special_in(o, self.issue) && would_trade(o, self.rows)
    }

    fn is_ready_on(&self, o: &Order, side: Side) -> bool
        ensures { result ≡ ready_on self.now.issue side self.now.rows.now o.now }
    {
        o.side == side && self.is_ready(o)
    }

    // The place of the first ready order on the side, by rank. The loop leaves by `break` with the place, a form that docs/DECISIONS.md names.
    fn ready_place(&self, side: Side) -> Option<usize>
        ensures { result ≡ option_map (λ x. x.place) (first_row (ready_on self.now.issue side self.now.rows.now) self.now.rows.now) }
    {
        let mut rest = self.rows.iter();
        loop {
            match rest.next() {
                None => break None,
                Some(row) if self.is_ready_on(&row.order, side) => break Some(row.place),
                Some(_) => {}
            }
        }
    }

    // The first ready order on the side, by rank.
    fn first_on_side(&self, side: Side) -> Option<Order>
        ensures { result ≡ first_by ahead (filter (on_side side) (readies self.now.issue (book_of self.now.table.now))) }
    {
        let place = self.ready_place(side)?;
        self.table.get(place)
    }

    // The order of a row, to be ranked by its stamp, if it is ready.
    fn ready_row(&self, k: usize) -> Option<Stamped>
        ensures { result ≡ stamped (ready_at self.now.issue self.now.rows.now k) }
    {
        let order = self.rows.get(k)?.order;
        self.is_ready(&order).then_some(Stamped { order })
    }

    // The ready order with the lowest stamp. By `first`, not `min_by_key`, after which it is not proved that no order that passes a `filter` has a lower stamp.
    fn earliest(&self) -> Option<Order>
        ensures { result ≡ first_by earlier (readies self.now.issue (book_of self.now.table.now)) }
    {
        first(self.rows.len(), |k| self.ready_row(k)).map(|(_, found)| found.order)
    }

    // The ready order that is active: where both sides have ready orders, the one with the lowest stamp; where one side has, its first by rank.
    pub fn ready_order(&self) -> Option<Order>
        ensures { result ≡ first_ready (readies self.now.issue (book_of self.now.table.now)) }
    {
        let buy = self.first_on_side(Side::Buy);
        let sell = self.first_on_side(Side::Sell);
        match (buy, sell) {
            (Some(_), Some(_)) => self.earliest(),
            _ => buy.or(sell),
        }
    }
}
