// What the board answers. No question changes anything, and any number may be asked about.
ghost use Rattle.std.specs.Prelude.{◌≡◌, ◌+◌, ◌-◌, ◌<◌, ◌≤◌, List, length, take, drop, Some, None, MatchOption, slice_index, if◌then◌else◌};
ghost use Rattle.register.specs.declared.holding.Row.{Row};
ghost use Rattle.orders.specs.declared.order.Trade.{Trade};
ghost use Rattle.orders.specs.Book.{find};
ghost use Rattle.rules.specs.Refusals.{known_issue};
ghost use Rattle.rules.specs.Market.{opening_question};
ghost use Rattle.board.specs.Boards.{ledger_of, state_of, readable};

use super::Board;
use opening::price;
use orders::order::{Order, Trade};
use rules::outcome::Phase;

impl Board {
    // The live order of a number.
    pub fn order(&self, number: u64) -> Option<Order>
        ensures { result ≡ find number (ledger_of self.now).live }
    {
        self.table.order(number)
    }

    // The previous close of an issue, if there is such an issue.
    fn close(&self, issue: u64) -> Option<u64>
        ensures { result ≡ (if known_issue issue then Some (slice_index self.now.closes (issue - 1)) else None) }
    {
        let place = issue.checked_sub(1)? as usize;
        self.closes.get(place).copied()
    }

    // The price at which an issue would open.
    pub fn opening_price(&self, issue: u64) -> Option<u64>
        ensures { (rows : List Row) (tape : List Trade) → result ≡ opening_question issue (state_of self.now rows tape) }
    {
        if self.phase != Phase::PreOpen {
            return None;
        }
        price::opening_price(&self.table, issue, self.close(issue)?)
    }

    pub fn phase(&self) -> Phase
        ensures { result ≡ (ledger_of self.now).phase }
    {
        self.phase
    }

    // How many records of the tape are used.
    pub fn used(&self) -> usize
        ensures { result ≡ (ledger_of self.now).used }
    {
        self.used
    }

    // How many orders are live.
    pub fn live(&self) -> usize
        ensures { result ≡ length (ledger_of self.now).live }
    {
        self.table.live()
    }

    // The `count` records from the place `from` on, as a part of the tape itself; absent where they pass the records used or the tape's end.
    pub fn trades<'t>(&self, tape: &'t [Trade], from: usize, count: usize) -> Option<&'t [Trade]>
        ensures { MatchOption result (readable self.now tape.now < from + count) (λ p. (from + count ≤ readable self.now tape.now) × (p.now ≡ take count (drop from tape.now))) }
    {
        let end = from.checked_add(count).filter(|end| *end <= self.used)?;
        tape.get(from..end)
    }
}
