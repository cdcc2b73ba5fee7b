// The calls on orders. Each is lent a tape and a strip, and may trade.
// Tape and strip stay two parameters: a struct that lends both would owe a clause for each, that the same memory comes back.
// `let board = &mut self.board` stands before a call on the table, since a call on a field of a field of `self` gets no proof here.
ghost use Rattle.std.specs.Prelude.{◌≡◌, true, is_ok};
ghost use Rattle.orders.specs.declared.order.Call.TheVariants.{Enter, Amend, Cancel, Suspend, Resume};
ghost use Rattle.orders.specs.Strip.{clean};
ghost use Rattle.board.specs.Boards.{lent_by};
ghost use Rattle.market.specs.Calls.{Called};

use super::Market;
use crate::settling::{cover, end_order, recover};
use board::checks::lent;
use board::conditions::restamps;
use orders::order::{Entry, Life, Term, Trade};
use register::contract::Register;
use rules::fault::MarketFault;
use rules::outcome::Outcome;

impl<'r, R: Register> Market<'r, R> {
    // Enters an order. Answers its number.
    pub fn enter(
        &mut self,
        tape: &mut [Trade],
        strip: &mut [u8],
        entry: Entry,
    ) -> Result<Outcome, MarketFault>
        ensures called { Called R.rows R.rest (lent_by tape.old strip.old) (Enter entry) result self.old self.new tape.old tape.new strip.old strip.new }
        ensures cleared { is_ok result ≡ true → clean strip.new ≡ true }
    {
        let price = self
            .board
            .check_enter(self.register, lent(tape, strip), entry)?;
        cover(self.register, entry);
        let board = &mut self.board;
        let number = board.table.place(entry, price);
        Ok(self.attempt(tape, strip, number, entry.issue, entry.life))
    }

    // Sets quantity left, price and term of a live order: parameters, as the rules' call names them, since checks and table take them one by one.
    pub fn amend(
        &mut self,
        tape: &mut [Trade],
        strip: &mut [u8],
        number: u64,
        quantity: u64,
        price: u64,
        term: Term,
    ) -> Result<Outcome, MarketFault>
        ensures called { Called R.rows R.rest (lent_by tape.old strip.old) (Amend number quantity price term) result self.old self.new tape.old tape.new strip.old strip.new }
        ensures cleared { is_ok result ≡ true → clean strip.new ≡ true }
    {
        let lent = lent(tape, strip);
        let o = self
            .board
            .check_amend(self.register, lent, number, quantity, price, term)?;
        recover(self.register, o, quantity);
        let again = restamps(o, price, term);
        let board = &mut self.board;
        board.table.amend(number, quantity, price, term, again);
        Ok(self.attempt(tape, strip, number, o.issue, Life::Day))
    }

    // Ends a live order.
    pub fn cancel(
        &mut self,
        tape: &mut [Trade],
        strip: &mut [u8],
        number: u64,
    ) -> Result<Outcome, MarketFault>
        ensures called { Called R.rows R.rest (lent_by tape.old strip.old) (Cancel number) result self.old self.new tape.old tape.new strip.old strip.new }
        ensures cleared { is_ok result ≡ true → clean strip.new ≡ true }
    {
        let o = self.board.check_live(lent(tape, strip), number)?;
        end_order(self.register, &mut self.board.table, number);
        Ok(self.finish(tape, strip, number, o.issue))
    }

    // Takes a working order out of work.
    pub fn suspend(
        &mut self,
        tape: &mut [Trade],
        strip: &mut [u8],
        number: u64,
    ) -> Result<Outcome, MarketFault>
        ensures called { Called R.rows R.rest (lent_by tape.old strip.old) (Suspend number) result self.old self.new tape.old tape.new strip.old strip.new }
        ensures cleared { is_ok result ≡ true → clean strip.new ≡ true }
    {
        let o = self.board.check_suspend(lent(tape, strip), number)?;
        let board = &mut self.board;
        board.table.suspend(number);
        Ok(self.finish(tape, strip, number, o.issue))
    }

    // Puts a suspended order back to work.
    pub fn resume(
        &mut self,
        tape: &mut [Trade],
        strip: &mut [u8],
        number: u64,
    ) -> Result<Outcome, MarketFault>
        ensures called { Called R.rows R.rest (lent_by tape.old strip.old) (Resume number) result self.old self.new tape.old tape.new strip.old strip.new }
        ensures cleared { is_ok result ≡ true → clean strip.new ≡ true }
    {
        let o = self.board.check_resume(lent(tape, strip), number)?;
        let board = &mut self.board;
        board.table.resume(number);
        Ok(self.attempt(tape, strip, number, o.issue, Life::Day))
    }
}
