// What the market asks of the register: no call of the market has any of this refused.
// Release, cover and settle stay apart: each names its own call, and a closure in its place would owe all that the call leaves of the register.
// `stays` compares two states of the register, so it is a clause of each function and no invariant.
// Functions over the register, or the register and the table, and not methods of the market: so the rest of the market is known to stay as it is.
ghost use Rattle.std.specs.Prelude.{◌≡◌, ◌≤◌, [], length};
ghost use Rattle.orders.specs.Book.{find, without};
ghost use Rattle.book.specs.Table.{book_of};
ghost use Rattle.rules.specs.Market.{all_settled, released_by, ended_rows, all_ended, covered, recovered};

use book::table::Table;
use orders::order::{Entry, Order, Side, Trade};
use register::contract::Register;

// Settles the trades, one after the other.
pub(crate) fn settle_all<R: Register>(register: &mut R, trades: &[Trade])
    ensures rows { R.rows register.new ≡ all_settled trades.now (R.rows register.old) }
    ensures stays { R.rest register.new ≡ R.rest register.old }
{
    for t in trades {
        let _ = register.settle(t.seller, t.buyer, t.issue, t.quantity);
    }
}

// A sell that ends releases what it has left.
pub(crate) fn release<R: Register>(register: &mut R, o: Order)
    ensures rows { R.rows register.new ≡ released_by o.side o (R.rows register.old) }
    ensures stays { R.rest register.new ≡ R.rest register.old }
{
    if o.side == Side::Sell {
        let _ = register.release(o.account, o.issue, o.left);
    }
}

// An entry to sell is covered by a hold.
pub(crate) fn cover<R: Register>(register: &mut R, entry: Entry)
    ensures rows { R.rows register.new ≡ covered entry.side entry (R.rows register.old) }
    ensures stays { R.rest register.new ≡ R.rest register.old }
{
    if entry.side == Side::Sell {
        let _ = register.hold(entry.account, entry.issue, entry.quantity);
    }
}

// A sell amended to another quantity holds or releases the difference.
pub(crate) fn recover<R: Register>(register: &mut R, o: Order, quantity: u64)
    ensures rows { R.rows register.new ≡ recovered o.side o quantity (R.rows register.old) }
    ensures stays { R.rest register.new ≡ R.rest register.old }
{
    if o.side == Side::Sell {
        if o.left < quantity {
            let _ = register.hold(o.account, o.issue, quantity - o.left);
        } else {
            let _ = register.release(o.account, o.issue, o.left - quantity);
        }
    }
}

// Ends a live order: a sell releases what it has left.
pub(crate) fn end_order<R: Register>(register: &mut R, table: &mut Table, number: u64)
    ensures rows { R.rows register.new ≡ ended_rows (find number (book_of table.old)) (R.rows register.old) }
    ensures book { book_of table.new ≡ without number (book_of table.old) }
    ensures live { length (book_of table.new) ≤ length (book_of table.old) }
    ensures given { table.new.given ≡ table.old.given }
    ensures stays { R.rest register.new ≡ R.rest register.old }
{
    if let Some(o) = table.remove(number) {
        release(register, o);
    }
}

// Ends every order, from the lowest number up.
pub(crate) fn end_all<R: Register>(register: &mut R, table: &mut Table)
    ensures rows { R.rows register.new ≡ all_ended (book_of table.old) (R.rows register.old) }
    ensures book { book_of table.new ≡ [] }
    ensures given { table.new.given ≡ table.old.given }
    ensures stays { R.rest register.new ≡ R.rest register.old }
{
    while let Some(o) = table.take_first() {
        release(register, o);
    }
}
