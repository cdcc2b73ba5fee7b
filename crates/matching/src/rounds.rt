// Rounds until no order is active.
ghost use Rattle.std.specs.Prelude.{◌≡◌, ◌≤◌, true, length};
ghost use Rattle.orders.specs.Strip.{clean};
ghost use Rattle.book.specs.Table.{book_of, Made};
ghost use Rattle.matching.specs.Rounds.{all_rounds};
ghost use Rattle.matching.specs.Laws.{Quiet};

use crate::active::active;
use crate::attempt::attempt;
use book::table::Table;
use orders::order::Trade;

// Rounds on the issue: their trades stand at the start of the tape's free part and are made. Answers how many trades and how many rounds there are.
// The market lends a clean strip and room for as many trades as there are live orders.
pub fn rounds(table: &mut Table, strip: &mut [u8], free: &mut [Trade], issue: u64) -> (usize, u64)
    requires strip { clean strip.old ≡ true }
    requires room { length (book_of table.old) ≤ length free.old }
    ensures made { Made (all_rounds issue (book_of table.old)).trades result.0 table.old table.new free.old free.new }
    ensures rounds { result.1 ≡ (all_rounds issue (book_of table.old)).count }
    ensures each { result.1 ≤ result.0 }
    ensures quiet { Quiet issue (book_of table.new) }
    ensures strip { strip.new ≡ strip.old }
{
    // Counted by hand: each round changes the table, and of what a closure changes nothing is known after it, so no `iter::from_fn`.
    let mut end = 0;
    let mut count: u64 = 0;
    while let Some(a) = active(table, strip, issue) {
        end += attempt(table, strip, &mut free[end..], a.number);
        count += 1;
    }
    (end, count)
}
