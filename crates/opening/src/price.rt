// The opening price of an issue.
ghost use Rattle.std.specs.Prelude.{◌≡◌, ◌<◌, MatchOption};
ghost use Rattle.orders.specs.Rank.{first_by};
ghost use Rattle.book.specs.Table.{book_of, at_place};
ghost use Rattle.opening.specs.Opening.{figures, wins, plain_of, candidates, limit_of, opening_price};
ghost use Rattle.opening.specs.Laws.{Opens, Unmatched};

use crate::candidate::Candidate;
use crate::level::Level;
use book::table::Table;
use orders::order::{Order, Side};
use orders::ranked::first;
use orders::strip::PLACES;

// The figures of a price.
// Table, issue and close stay three arguments, here and below. A struct of the three was tried: each clause would read `self.now.table.now`,
// and the proof of `candidate_at`, the candidate at a place, did not close.
fn figures_of(table: &Table, issue: u64, close: u64, price: u64) -> Candidate
    ensures { result ≡ figures issue (book_of table.now) close price }
{
    let level = Level { issue, price };
    let buys = level.quantity(table, Side::Buy);
    let sells = level.quantity(table, Side::Sell);
    Candidate {
        price,
        matched: buys.min(sells),
        surplus: buys.abs_diff(sells),
        away: price.abs_diff(close),
    }
}

// A working plain order of the issue.
fn is_plain_of(o: &Order, issue: u64) -> bool
    ensures { result ≡ plain_of issue o.now }
{
    o.issue == issue && o.working && !o.term.is_special()
}

// The figures of the limit of the order at a place, if it is a working plain order of the issue.
fn candidate_at(table: &Table, issue: u64, close: u64, place: usize) -> Option<Candidate>
    ensures { result ≡ limit_of issue close (book_of table.now) (at_place table.now place) }
{
    table
        .get(place)
        .filter(|o| is_plain_of(o, issue))
        .map(|o| figures_of(table, issue, close, o.price))
}

// The candidate that comes before every other.
fn best_candidate(table: &Table, issue: u64, close: u64) -> Option<Candidate>
    ensures { result ≡ first_by wins (candidates issue close (book_of table.now)) }
{
    first(PLACES, |place| candidate_at(table, issue, close, place)).map(|(_, c)| c)
}

// The opening price of an issue, if there is one.
pub fn opening_price(table: &Table, issue: u64, close: u64) -> Option<u64>
    ensures is { result ≡ opening_price issue close (book_of table.now) }
    ensures opens { MatchOption result (Unmatched issue (book_of table.now)) (λ p. Opens issue close (book_of table.now) p) }
{
    best_candidate(table, issue, close)
        .filter(|c| c.matched != 0)
        .map(|c| c.price)
}
