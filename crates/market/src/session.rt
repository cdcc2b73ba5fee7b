// The calls on the register and on the session.
// A call that is lent no tape and no strip is the rules' step with any, and leaves them as they are.
ghost use Rattle.std.specs.Prelude.{◌≡◌, ℕ, true, List, is_ok};
ghost use Rattle.orders.specs.declared.order.Trade.{Trade};
ghost use Rattle.orders.specs.declared.order.Call.TheVariants.{Deposit, Withdraw, Reference, Open, Close};
ghost use Rattle.orders.specs.Strip.{clean};
ghost use Rattle.rules.specs.declared.lent.Lent.{Lent};
ghost use Rattle.board.specs.Boards.{lent_by};
ghost use Rattle.market.specs.Calls.{Called};

use super::Market;
use crate::settling::end_all;
use board::checks::lent;
use orders::order::Trade;
use register::contract::Register;
use rules::fault::MarketFault;
use rules::outcome::{Outcome, Phase};

impl<'r, R: Register> Market<'r, R> {
    // Adds to the free shares of a pair. Not one function with `withdraw` over a closure: of what a closure changes nothing is known after it.
    pub fn deposit(
        &mut self,
        account: u64,
        issue: u64,
        quantity: u64,
    ) -> Result<Outcome, MarketFault>
        ensures called { (lent : Lent) (tape : List Trade) (strip : List ℕ) → Called R.rows R.rest lent (Deposit account issue quantity) result self.old self.new tape tape strip strip }
        ensures used { self.new.board.used ≡ self.old.board.used }
    {
        self.board.check_moving()?;
        self.register.deposit(account, issue, quantity)?;
        Ok(Outcome::of(0))
    }

    // Takes from the free shares of a pair.
    pub fn withdraw(
        &mut self,
        account: u64,
        issue: u64,
        quantity: u64,
    ) -> Result<Outcome, MarketFault>
        ensures called { (lent : Lent) (tape : List Trade) (strip : List ℕ) → Called R.rows R.rest lent (Withdraw account issue quantity) result self.old self.new tape tape strip strip }
        ensures used { self.new.board.used ≡ self.old.board.used }
    {
        self.board.check_moving()?;
        self.register.withdraw(account, issue, quantity)?;
        Ok(Outcome::of(0))
    }

    // Sets the previous close of an issue.
    pub fn reference(&mut self, issue: u64, price: u64) -> Result<Outcome, MarketFault>
        ensures called { (lent : Lent) (tape : List Trade) (strip : List ℕ) → Called R.rows R.rest lent (Reference issue price) result self.old self.new tape tape strip strip }
        ensures used { self.new.board.used ≡ self.old.board.used }
    {
        self.board.check_reference(issue, price)?;
        self.board.closes[(issue - 1) as usize] = price;
        Ok(Outcome::of(0))
    }

    // Opens: each issue trades at its opening price, then rounds follow in each.
    pub fn open(&mut self, tape: &mut [Trade], strip: &mut [u8]) -> Result<Outcome, MarketFault>
        ensures called { Called R.rows R.rest (lent_by tape.old strip.old) Open result self.old self.new tape.old tape.new strip.old strip.new }
        ensures cleared { is_ok result ≡ true → clean strip.new ≡ true }
    {
        self.board.check_open(lent(tape, strip))?;
        self.board.phase = Phase::Continuous;
        let made = self.execute_opening(tape);
        Ok(self.rounds_in_all(tape, strip, made))
    }

    // Closes: every order ends.
    pub fn close(&mut self) -> Result<Outcome, MarketFault>
        ensures called { (lent : Lent) (tape : List Trade) (strip : List ℕ) → Called R.rows R.rest lent Close result self.old self.new tape tape strip strip }
        ensures used { self.new.board.used ≡ self.old.board.used }
    {
        self.board.check_close()?;
        end_all(self.register, &mut self.board.table);
        self.board.phase = Phase::Closed;
        Ok(Outcome::of(0))
    }
}
