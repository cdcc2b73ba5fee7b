// The trades of an attempt, written on the tape before any of them is made.
ghost use Rattle.std.specs.Prelude.{◌≡◌, ◌+◌, ◌≤◌, length, filter};
ghost use Rattle.orders.specs.Tape.{written};
ghost use Rattle.matching.specs.Walk.{walk};
ghost use Rattle.matching.specs.Attempt.{trade_of, trades_of};
ghost use Rattle.matching.specs.Listing.{orders_in, meets, attempt_over};

use crate::listed::Listed;
use crate::walk::{does_face, fills, first_to_give, offer};
use orders::order::{Order, Side, Term, Trade};

// The trade of the active order a with the waiting order o, at the price of o.
fn trade(a: &Order, o: &Order, quantity: u64) -> Trade
    ensures { result ≡ trade_of a.now.side a.now o.now quantity }
{
    let (buy, sell) = match a.side {
        Side::Buy => (a, o),
        Side::Sell => (o, a),
    };
    Trade::between(a.issue, buy, sell, quantity, o.price)
}

// The active order a walks o, which is not left out.
fn does_meet(skip: Option<u64>, a: &Order, o: &Order) -> bool
    ensures { result ≡ meets skip a.now o.now }
{
    does_face(a, o) && skip != Some(o.number)
}

// Writes the trades of a walk for `wanted` from place `from` on, and answers the place behind the last of them.
fn walk_on(
    a: &Order,
    rows: &[Listed],
    skip: Option<u64>,
    wanted: u64,
    free: &mut [Trade],
    from: usize,
) -> usize
    requires { from + length (filter (meets skip a.now) (orders_in rows.now)) ≤ length free.old }
    ensures free { free.new ≡ written from (trades_of a.now (walk wanted (filter (meets skip a.now) (orders_in rows.now)))) free.old }
    ensures end { result ≡ from + length (trades_of a.now (walk wanted (filter (meets skip a.now) (orders_in rows.now)))) }
{
    // A loop: each trade is written, and of what a closure writes nothing is known after it.
    let mut left = wanted;
    let mut end = from;
    for o in rows
        .iter()
        .map(|row| row.order)
        .filter(|o| does_meet(skip, a, o))
    {
        let q = offer(&o, left);
        if q > 0 {
            free[end] = trade(a, &o, q);
            end += 1;
            left -= q;
        }
    }
    end
}

// Writes the trades of the active order's attempt over the listed orders at the start of the tape's free part, and answers how many there are.
// Straight to the tape, and no list of their own: that took 14 KiB of stack besides the rows.
pub fn plan(a: &Order, rows: &[Listed], free: &mut [Trade]) -> usize
    requires { length rows.now ≤ length free.old }
    ensures free { free.new ≡ written 0 (attempt_over a.now rows.now) free.old }
    ensures count { result ≡ length (attempt_over a.now rows.now) }
{
    match a.term {
        Term::All if !fills(a, rows) => 0,
        Term::Plain | Term::All => walk_on(a, rows, None, a.left, free, 0),
        Term::Least(m) => match first_to_give(a, m, rows) {
            Some(o) => {
                let q = offer(&o, a.left);
                free[0] = trade(a, &o, q);
                walk_on(a, rows, Some(o.number), a.left - q, free, 1)
            }
            None => 0,
        },
    }
}
