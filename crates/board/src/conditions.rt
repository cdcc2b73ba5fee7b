// The conditions behind the refusals that are no plain comparison, and the limit of an entry, one function each.
ghost use Rattle.std.specs.Prelude.{◌≡◌, Some};
ghost use Rattle.rules.specs.Ledger.{limit_for, restamps};
ghost use Rattle.rules.specs.Refusals.{limit_breaks, known_issue, is_open, too_few, wrong_to_enter};

use orders::bounds::price_breaks;
use orders::order::{Entry, Life, Order, Price, Term};
use register::contract::Register;
use register::holding::LAST_ISSUE;
use rules::outcome::Phase;

pub(crate) fn limit_breaks(price: Price) -> bool
    ensures { result ≡ limit_breaks price }
{
    matches!(price, Price::Limit(p) if price_breaks(p))
}

pub(crate) fn is_known(issue: u64) -> bool
    ensures { result ≡ known_issue issue }
{
    (1..=LAST_ISSUE).contains(&issue)
}

// An amendment to this price and term gives the order a new stamp.
pub fn restamps(o: Order, price: u64, term: Term) -> bool
    ensures { result ≡ restamps (Some o) price term }
{
    o.price != price || o.term != term
}

// The limit of an entry: its own, or the price of the best order opposite. No Option: with none opposite, where it is 0, a market order is refused before.
pub fn limit_for(price: Price, best: Option<Order>) -> u64
    ensures { result ≡ limit_for price best }
{
    match price {
        Price::Limit(p) => p,
        Price::Market => best.map_or(0, |o| o.price),
    }
}

// An entry needs a phase, and market and now need continuous trading.
pub(crate) fn wrong_to_enter(phase: Phase, entry: Entry) -> bool
    ensures { result ≡ wrong_to_enter phase entry }
{
    match phase {
        Phase::PreOpen => entry.price == Price::Market || entry.life == Life::Now,
        Phase::Continuous => false,
        Phase::Closed => true,
    }
}

pub(crate) fn is_open<R: Register>(register: &R, account: u64, issue: u64) -> bool
    ensures { result ≡ is_open account issue (R.rows register.now) }
{
    register.balance(account, issue).is_some()
}

// The pair's free shares are below the quantity.
pub(crate) fn too_few<R: Register>(register: &R, account: u64, issue: u64, quantity: u64) -> bool
    ensures { result ≡ too_few account issue quantity (R.rows register.now) }
{
    register.balance(account, issue).map_or(0, |(free, _)| free) < quantity
}
