// The opening trades.
ghost use Rattle.std.specs.Prelude.{◌≡◌, ◌≤◌, [], ◌∷◌, length, MatchOption};
ghost use Rattle.orders.specs.Book.{after_trade};
ghost use Rattle.book.specs.Table.{book_of, Made};
ghost use Rattle.opening.specs.Opening.{pairing, trades_at, opening_trades, all_trades};

use crate::level::Level;
use crate::price::opening_price;
use book::table::Table;
use orders::order::{Order, Side, Trade};

// As many as the registers have, on which this crate does not stand.
pub const ISSUES: usize = 16;

// A buy and a sell trade the lesser of what they have left.
fn pair(table: &mut Table, buy: Order, sell: Order, price: u64) -> Trade
    ensures trade { result ≡ pairing price buy sell }
    ensures book { book_of table.new ≡ after_trade (pairing price buy sell) (book_of table.old) }
    ensures given { table.new.given ≡ table.old.given }
{
    let t = Trade::between(buy.issue, &buy, &sell, buy.left.min(sell.left), price);
    table.trade(&t);
    t
}

impl Level {
    // Makes the next trade at the price, if there is one more.
    fn next_trade(self, table: &mut Table) -> Option<Trade>
        ensures trades { MatchOption result (trades_at self.issue self.price (book_of table.old) ≡ []) (λ t. trades_at self.issue self.price (book_of table.old) ≡ t ∷ trades_at self.issue self.price (book_of table.new)) }
        ensures book { MatchOption result (book_of table.new ≡ book_of table.old) (λ t. book_of table.new ≡ after_trade t (book_of table.old)) }
        ensures given { table.new.given ≡ table.old.given }
    {
        let buy = self.best(table, Side::Buy)?;
        let sell = self.best(table, Side::Sell)?;
        Some(pair(table, buy, sell, self.price))
    }

    // Trades at the price until there is no more, and writes the trades to the free part of the tape. Answers how many.
    #[tactic(auto, using(crate::proofs::Issues::few_at, crate::proofs::Issues::finish))]
    fn trade(self, table: &mut Table, free: &mut [Trade]) -> usize
        requires room { length (book_of table.old) ≤ length free.old }
        ensures made { Made (trades_at self.issue self.price (book_of table.old)) result table.old table.new free.old free.new }
    {
        // Counted by hand: a `for` over the records of `free` would have to leave by `break`, and of what a closure changes nothing is known after it.
        let mut made = 0;
        while let Some(t) = self.next_trade(table) {
            free[made] = t;
            made += 1;
        }
        made
    }
}

// Trades an issue at its opening price, if it has one, and writes the trades to the free part of the tape. Answers how many.
pub fn open_issue(table: &mut Table, free: &mut [Trade], issue: u64, close: u64) -> usize
    requires room { length (book_of table.old) ≤ length free.old }
    ensures made { Made (opening_trades issue close (book_of table.old)) result table.old table.new free.old free.new }
{
    // No `map_or`: of what its closure would change behind `table` and `free` nothing is known after it.
    let Some(price) = opening_price(table, issue, close) else {
        return 0;
    };
    Level { issue, price }.trade(table, free)
}

// Trades each issue from 1 up at its opening price, and writes the trades to the free part of the tape. Answers how many.
#[tactic(auto, using(crate::proofs::Issues::none_left, crate::proofs::Issues::few_all, crate::proofs::Issues::finish))]
pub fn open_all(table: &mut Table, free: &mut [Trade], closes: &[u64; ISSUES]) -> usize
    requires room { length (book_of table.old) ≤ length free.old }
    ensures made { Made (all_trades 1 closes.now (book_of table.old)) result table.old table.new free.old free.new }
{
    let mut made = 0;
    for (issue, close) in (1..).zip(closes) {
        made += open_issue(table, &mut free[made..], issue, *close);
    }
    made
}
