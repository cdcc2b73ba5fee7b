// Walks over listed orders that change nothing.
// The active order and the rows stay two parameters: who is ready is found by taking each listed order in turn for the active one.
ghost use Rattle.std.specs.Prelude.{◌≡◌, ◌≤◌, ◌-◌, ◌==◌, fold};
ghost use Rattle.matching.specs.Walk.{faces, gives, walk, amount, first_giving};
ghost use Rattle.matching.specs.Listing.{facing};

use crate::listed::Listed;
use orders::order::{Order, Term};

// The active order a walks o.
pub fn does_face(a: &Order, o: &Order) -> bool
    ensures { result ≡ faces a.now o.now }
{
    o.is_working_opposite(a.issue, a.side) && a.side.is_within(a.price, o.price)
}

// What a waiting order gives where w is wanted.
pub fn offer(o: &Order, w: u64) -> u64
    ensures is { result ≡ gives o.now.term o.now.left w }
    ensures few { result ≤ w }
{
    let q = w.min(o.left);
    match o.term {
        Term::Plain => q,
        Term::All => { if o.left <= w { o.left } else { 0 } }
        Term::Least(m) => { if m <= q { q } else { 0 } }
    }
}

// What of the active order is still wanted after its walk.
fn unfilled(a: &Order, rows: &[Listed]) -> u64
    ensures { result ≡ fold (λ w o. w - gives o.term o.left w) a.now.left (facing a.now rows.now) }
{
    rows.iter()
        .map(|row| row.order)
        .filter(|o| does_face(a, o))
        .fold(a.left, |w, o| w - offer(&o, w))
}

// The parts of the active order's walk add up to all that it has left.
pub fn fills(a: &Order, rows: &[Listed]) -> bool
    ensures { result ≡ (amount (walk a.now.left (facing a.now rows.now)) == a.now.left) }
{
    unfilled(a, rows) == 0
}

// The first listed order that gives the active order a part of at least m.
pub fn first_to_give(a: &Order, m: u64, rows: &[Listed]) -> Option<Order>
    ensures { result ≡ first_giving m a.now.left (facing a.now rows.now) }
{
    rows.iter()
        .map(|row| row.order)
        .filter(|o| does_face(a, o))
        .find(|o| m.max(1) <= offer(o, a.left))
}
