// An attempt: its trades on the tape and on the table.
ghost use Rattle.std.specs.Prelude.{◌≡◌, ◌≤◌, true, length, Some};
ghost use Rattle.orders.specs.Book.{find, after};
ghost use Rattle.orders.specs.Strip.{clean};
ghost use Rattle.book.specs.Table.{book_of, Made};
ghost use Rattle.orders.specs.Tape.{written};
ghost use Rattle.matching.specs.Attempt.{attempt as trades_by, attempt_of};

use crate::listing::list;
use crate::plan::plan;
use arrayvec::ArrayVec;
use book::table::Table;
use orders::order::{Order, Trade};

// Makes the trades one after another.
fn make(table: &mut Table, trades: &[Trade])
    ensures book { book_of table.new ≡ after trades.now (book_of table.old) }
    ensures given { table.new.given ≡ table.old.given }
{
    for t in trades {
        table.trade(t);
    }
}

// Writes the trades of the attempt of a at the start of the tape's free part, and answers how many there are.
fn planned(table: &Table, strip: &mut [u8], free: &mut [Trade], a: &Order) -> usize
    requires strip { clean strip.old ≡ true }
    requires room { length (book_of table.now) ≤ length free.old }
    ensures free { free.new ≡ written 0 (trades_by a.now (book_of table.now)) free.old }
    ensures count { result ≡ length (trades_by a.now (book_of table.now)) }
    ensures strip { strip.new ≡ strip.old }
{
    let mut rows = ArrayVec::new();
    list(table, strip, a.issue, &mut rows);
    plan(a, &rows, free)
}

// The attempt of a live working order: first its trades are written, then they are made.
fn attempt_live(table: &mut Table, strip: &mut [u8], free: &mut [Trade], a: &Order) -> usize
    requires live { (find a.now.number (book_of table.old) ≡ Some a.now) × (a.now.working ≡ true) }
    requires strip { clean strip.old ≡ true }
    requires room { length (book_of table.old) ≤ length free.old }
    ensures made { Made (trades_by a.now (book_of table.old)) result table.old table.new free.old free.new }
    ensures strip { strip.new ≡ strip.old }
{
    let made = planned(table, strip, free, a);
    make(table, &free[..made]);
    made
}

// The attempt of the live order of this number, if it is working: its trades stand at the start of the tape's free part and are made. Answers how many there are.
// The market lends a clean strip and room for as many trades as there are live orders: a fact about table and tape together, so a clause and no type.
pub fn attempt(table: &mut Table, strip: &mut [u8], free: &mut [Trade], number: u64) -> usize
    requires strip { clean strip.old ≡ true }
    requires room { length (book_of table.old) ≤ length free.old }
    ensures made { Made (attempt_of number (book_of table.old)) result table.old table.new free.old free.new }
    ensures strip { strip.new ≡ strip.old }
{
    match table.order(number) {
        Some(a) if a.working => attempt_live(table, strip, free, &a),
        _ => 0,
    }
}
