// The bounds of an order.
ghost use Rattle.std.specs.Prelude.{◌≡◌, Decides};
ghost use Rattle.orders.specs.Orders.{Valid, breaks_price, breaks_quantity, breaks_least, in_bounds};

use crate::order::{Order, Term};

const LOWEST_PRICE: u64 = 10;

const HIGHEST_PRICE: u64 = 1_000_000;

const PRICE_STEP: u64 = 10;

const MOST_SHARES: u64 = 100_000_000;

pub fn price_breaks(price: u64) -> bool
    ensures { result ≡ breaks_price price }
{
    !(LOWEST_PRICE..=HIGHEST_PRICE).contains(&price) || price % PRICE_STEP != 0
}

pub fn quantity_breaks(quantity: u64) -> bool
    ensures { result ≡ breaks_quantity quantity }
{
    !(1..=MOST_SHARES).contains(&quantity)
}

pub fn least_breaks(term: Term, quantity: u64) -> bool
    ensures { result ≡ breaks_least term quantity }
{
    matches!(term, Term::Least(m) if !(1..=quantity).contains(&m))
}

// The order keeps its bounds.
pub fn is_in_bounds(o: &Order) -> bool
    ensures test { result ≡ in_bounds o.now }
    ensures words { Decides result (Valid o.now) }
{
    !(price_breaks(o.price) || quantity_breaks(o.left) || least_breaks(o.term, o.left))
}
