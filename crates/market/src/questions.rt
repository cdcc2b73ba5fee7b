// What the market answers. No question changes anything, and any number may be asked about.
ghost use Rattle.std.specs.Prelude.{◌≡◌, ◌+◌, ◌<◌, ◌≤◌, List, length, take, drop, MatchOption};
ghost use Rattle.register.specs.Rules.{balance_of, total_of};
ghost use Rattle.orders.specs.declared.order.Trade.{Trade};
ghost use Rattle.orders.specs.Book.{find};
ghost use Rattle.rules.specs.Market.{opening_question};
ghost use Rattle.board.specs.Boards.{ledger_of, state_of, readable};

use super::Market;
use orders::order::{Order, Trade};
use register::contract::Register;
use rules::outcome::Phase;

impl<'r, R: Register> Market<'r, R> {
    // The live order of a number.
    pub fn order(&self, number: u64) -> Option<Order>
        ensures { result ≡ find number (ledger_of self.now.board).live }
    {
        self.board.order(number)
    }

    // The price at which an issue would open.
    pub fn opening_price(&self, issue: u64) -> Option<u64>
        ensures { (tape : List Trade) → result ≡ opening_question issue (state_of self.now.board (R.rows self.now.register.now) tape) }
    {
        self.board.opening_price(issue)
    }

    pub fn phase(&self) -> Phase
        ensures { result ≡ (ledger_of self.now.board).phase }
    {
        self.board.phase()
    }

    // How many records of the tape are used.
    pub fn used(&self) -> usize
        ensures { result ≡ (ledger_of self.now.board).used }
    {
        self.board.used()
    }

    // How many orders are live.
    pub fn live(&self) -> usize
        ensures { result ≡ length (ledger_of self.now.board).live }
    {
        self.board.live()
    }

    // The `count` records from the place `from` on, as a part of the tape itself; absent where they pass the records used or the tape's end.
    pub fn trades<'t>(&self, tape: &'t [Trade], from: usize, count: usize) -> Option<&'t [Trade]>
        ensures { MatchOption result (readable self.now.board tape.now < from + count) (λ p. (from + count ≤ readable self.now.board tape.now) × (p.now ≡ take count (drop from tape.now))) }
    {
        self.board.trades(tape, from, count)
    }

    // Free and held shares of a pair, absent where it is not open.
    pub fn balance(&self, account: u64, issue: u64) -> Option<(u64, u64)>
        ensures { result ≡ balance_of account issue (R.rows self.now.register.now) }
    {
        self.register.balance(account, issue)
    }

    // Free plus held over the open pairs of an issue.
    pub fn total(&self, issue: u64) -> u64
        ensures { result ≡ total_of issue (R.rows self.now.register.now) }
    {
        self.register.total(issue)
    }
}
