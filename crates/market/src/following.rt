// What follows an accepted call: an attempt, the end of a now order, and rounds.
ghost use Rattle.std.specs.Prelude.{◌≡◌, ◌≤◌, List, Ok};
ghost use Rattle.register.specs.Rules.{issues};
ghost use Rattle.orders.specs.declared.order.Trade.{Trade};
ghost use Rattle.rules.specs.Market.{by_rounds, done, finished, if_now, tried, rounds_in};
ghost use Rattle.board.specs.Boards.{state_of};
ghost use Rattle.market.specs.Calls.{needed, Ready, Counted, Lasts};

use super::Market;
use crate::settling::end_order;
use board::Board;
use orders::order::{Life, Trade};
use register::contract::Register;
use register::holding::LAST_ISSUE;
use rules::outcome::{Outcome, Phase};

// Ends what is left of a now order. A function over register and board, and no method of the market: a method would owe a clause that the register is the same one.
fn end_if_now<R: Register>(register: &mut R, board: &mut Board, life: Life, number: u64)
    ensures state { (tape : List Trade) → state_of board.new (R.rows register.new) tape ≡ if_now life number (state_of board.old (R.rows register.old) tape) }
    ensures used { board.new.used ≡ board.old.used }
    ensures fewer { needed board.new ≤ needed board.old }
    ensures stays { R.rest register.new ≡ R.rest register.old }
{
    if life == Life::Now {
        end_order(register, &mut board.table, number);
    }
}

impl<'r, R: Register> Market<'r, R> {
    // Rounds on the issue, after what the call did before.
    fn by_rounds(
        &mut self,
        tape: &mut [Trade],
        strip: &mut [u8],
        issue: u64,
        before: Outcome,
    ) -> Outcome
        requires ready { Ready self.old.board tape.old strip.old }
        requires before { Counted before self.old.board }
        ensures does { (Ok result, state_of self.new.board (R.rows self.new.register.now) tape.new) ≡ by_rounds before.number issue before.trades before.rounds (state_of self.old.board (R.rows self.old.register.now) tape.old) }
        ensures after { Counted result self.new.board }
        ensures fewer { needed self.new.board ≤ needed self.old.board }
        ensures lasts { Lasts R.rest self.old self.new tape.old tape.new strip.old strip.new }
    {
        let (made, count) = self.execute_rounds(tape, strip, issue);
        Outcome {
            trades: before.trades + made as u64,
            rounds: before.rounds + count,
            ..before
        }
    }

    // In continuous, rounds on the issue end the call.
    pub(crate) fn finish(
        &mut self,
        tape: &mut [Trade],
        strip: &mut [u8],
        number: u64,
        issue: u64,
    ) -> Outcome
        requires { Ready self.old.board tape.old strip.old }
        ensures does { (Ok result, state_of self.new.board (R.rows self.new.register.now) tape.new) ≡ finished self.old.board.phase number issue (state_of self.old.board (R.rows self.old.register.now) tape.old) }
        ensures lasts { Lasts R.rest self.old self.new tape.old tape.new strip.old strip.new }
    {
        let outcome = Outcome::of(number);
        if self.board.phase == Phase::Continuous {
            self.by_rounds(tape, strip, issue, outcome)
        } else {
            outcome
        }
    }

    // In continuous, an attempt by the order, its end if its life is now, and rounds on its issue end the call.
    pub(crate) fn attempt(
        &mut self,
        tape: &mut [Trade],
        strip: &mut [u8],
        number: u64,
        issue: u64,
        life: Life,
    ) -> Outcome
        requires { Ready self.old.board tape.old strip.old }
        ensures does { (Ok result, state_of self.new.board (R.rows self.new.register.now) tape.new) ≡ tried self.old.board.phase life number issue (state_of self.old.board (R.rows self.old.register.now) tape.old) }
        ensures lasts { Lasts R.rest self.old self.new tape.old tape.new strip.old strip.new }
    {
        let outcome = Outcome::of(number);
        if self.board.phase != Phase::Continuous {
            return outcome;
        }
        let trades = self.execute_attempt(tape, strip, number) as u64;
        end_if_now(self.register, &mut self.board, life, number);
        self.by_rounds(tape, strip, issue, Outcome { trades, ..outcome })
    }

    // Rounds on each issue from 1 up, after the opening trades. A loop and no `fold`: of what a closure changes nothing is known after it.
    pub(crate) fn rounds_in_all(
        &mut self,
        tape: &mut [Trade],
        strip: &mut [u8],
        made: usize,
    ) -> Outcome
        requires ready { Ready self.old.board tape.old strip.old }
        requires made { made ≤ self.old.board.used }
        ensures does { (Ok result, state_of self.new.board (R.rows self.new.register.now) tape.new) ≡ rounds_in issues (done 0 made 0, state_of self.old.board (R.rows self.old.register.now) tape.old) }
        ensures lasts { Lasts R.rest self.old self.new tape.old tape.new strip.old strip.new }
    {
        let mut outcome = Outcome {
            trades: made as u64,
            ..Outcome::of(0)
        };
        for issue in 1..=LAST_ISSUE {
            outcome = self.by_rounds(tape, strip, issue, outcome);
        }
        outcome
    }
}
