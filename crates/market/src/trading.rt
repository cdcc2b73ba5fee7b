// Trades: made on the table and the tape, then settled in the register.
// Three functions, and not one over a closure for the step: of a strip that a closure has captured nothing is known after the call, so that it was not
// proved to come back as it was; and with table, strip and tape as its arguments the one contract would have to say of every step what each of the three says of its own.
ghost use Rattle.std.specs.Prelude.{◌≡◌, ℕ, ◌+◌, ◌≤◌, min, List, length, take, drop};
ghost use Rattle.matching.specs.Attempt.{attempt_of};
ghost use Rattle.matching.specs.Rounds.{all_rounds};
ghost use Rattle.opening.specs.Opening.{all_trades};
ghost use Rattle.book.specs.Table.{book_of};
ghost use Rattle.rules.specs.Market.{all_settled};
ghost use Rattle.market.specs.Calls.{needed, Ready, Executed};

use super::Market;
use crate::settling::settle_all;
use matching::attempt::attempt;
use matching::rounds::rounds;
use opening::trades::open_all;
use orders::order::Trade;
use register::contract::Register;

impl<'r, R: Register> Market<'r, R> {
    // Settles the next `made` trades of the tape, which stand on the table: their records are used.
    fn settle_next(&mut self, tape: &[Trade], made: usize)
        requires { self.old.board.used + made ≤ min (length tape.now) 32768 }
        ensures used { self.new.board.used ≡ self.old.board.used + made }
        ensures board { (self.new.board.table ≡ self.old.board.table) × (self.new.board.phase ≡ self.old.board.phase) × (self.new.board.closes ≡ self.old.board.closes) }
        ensures rows { R.rows self.new.register.now ≡ all_settled (take made (drop self.old.board.used tape.now)) (R.rows self.old.register.now) }
        ensures register { R.rest self.new.register.now ≡ R.rest self.old.register.now }
        ensures named { self.new.register.ghost_name ≡ self.old.register.ghost_name }
    {
        let from = self.board.used;
        self.board.used += made;
        settle_all(self.register, &tape[from..self.board.used]);
    }

    // The attempt of a live order. Answers how many trades it makes.
    pub(crate) fn execute_attempt(
        &mut self,
        tape: &mut [Trade],
        strip: &mut [u8],
        number: u64,
    ) -> usize
        requires { Ready self.old.board tape.old strip.old }
        ensures { Executed R.rows R.rest (attempt_of number (book_of self.old.board.table)) result self.old self.new tape.old tape.new strip.old strip.new }
    {
        let board = &mut self.board;
        let free = &mut tape[board.used..];
        let made = attempt(&mut board.table, strip, free, number);
        self.settle_next(tape, made);
        made
    }

    // Rounds on an issue. Answers how many trades and how many rounds there are.
    pub(crate) fn execute_rounds(
        &mut self,
        tape: &mut [Trade],
        strip: &mut [u8],
        issue: u64,
    ) -> (usize, u64)
        requires { Ready self.old.board tape.old strip.old }
        ensures executed { Executed R.rows R.rest (all_rounds issue (book_of self.old.board.table)).trades result.0 self.old self.new tape.old tape.new strip.old strip.new }
        ensures rounds { result.1 ≡ (all_rounds issue (book_of self.old.board.table)).count }
        ensures each { result.1 ≤ result.0 }
    {
        let board = &mut self.board;
        let free = &mut tape[board.used..];
        let (made, count) = rounds(&mut board.table, strip, free, issue);
        self.settle_next(tape, made);
        (made, count)
    }

    // The opening trades of all issues. Answers how many there are.
    pub(crate) fn execute_opening(&mut self, tape: &mut [Trade]) -> usize
        requires { needed self.old.board ≤ min (length tape.old) 32768 }
        ensures { (strip : List ℕ) → Executed R.rows R.rest (all_trades 1 self.old.board.closes (book_of self.old.board.table)) result self.old self.new tape.old tape.new strip strip }
    {
        let board = &mut self.board;
        let free = &mut tape[board.used..];
        let made = open_all(&mut board.table, free, &board.closes);
        self.settle_next(tape, made);
        made
    }
}
