// The order that a round makes active.
ghost use Rattle.std.specs.Prelude.{◌≡◌, true};
ghost use Rattle.orders.specs.Strip.{clean};
ghost use Rattle.book.specs.Table.{book_of};
ghost use Rattle.matching.specs.Rounds.{best_plain, later, crossing, first_ready, active_in};
ghost use Rattle.matching.specs.Listing.{readies};

use crate::listing::{Listing, list};
use arrayvec::ArrayVec;
use book::table::Table;
use orders::order::{Order, Side};

// The first by rank of the working plain orders of the issue on the side.
fn best_of_plain(table: &Table, issue: u64, side: Side) -> Option<Order>
    ensures { result ≡ best_plain issue side (book_of table.now) }
{
    table.best(|o| o.is_plain_in(issue, side))
}

fn later_of(x: Order, y: Order) -> Order
    ensures { result ≡ later x y }
{
    if x.is_earlier(&y) { y } else { x }
}

// Of a best plain buy at or above the best plain sell, the later-stamped.
fn crossed(buy: Option<Order>, sell: Option<Order>) -> Option<Order>
    ensures { result ≡ crossing buy sell }
{
    let (x, y) = buy.zip(sell)?;
    (y.price <= x.price).then_some(later_of(x, y))
}

// The ready order that is active, once no plain orders cross.
fn active_special(table: &Table, strip: &mut [u8], issue: u64) -> Option<Order>
    requires { clean strip.old ≡ true }
    ensures order { result ≡ first_ready (readies issue (book_of table.now)) }
    ensures strip { strip.new ≡ strip.old }
{
    let mut rows = ArrayVec::new();
    list(table, strip, issue, &mut rows);
    Listing {
        table,
        issue,
        rows: &rows,
    }
    .ready_order()
}

// The order that a round on the issue makes active, if there is one. The market lends a clean strip.
pub fn active(table: &Table, strip: &mut [u8], issue: u64) -> Option<Order>
    requires { clean strip.old ≡ true }
    ensures order { result ≡ active_in issue (book_of table.now) }
    ensures strip { strip.new ≡ strip.old }
{
    let buy = best_of_plain(table, issue, Side::Buy);
    let sell = best_of_plain(table, issue, Side::Sell);
    // Not `or_else`, whose contract does not say that the strip stays where nothing is called.
    match crossed(buy, sell) {
        None => active_special(table, strip, issue),
        found => found,
    }
}
