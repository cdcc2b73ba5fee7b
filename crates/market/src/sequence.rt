// Calls of any kind, one by one and in a list.
ghost use Rattle.std.specs.Prelude.{◌≡◌, true, drop, is_err, IfOk};
ghost use Rattle.rules.specs.Market.{set_up, run as run_of};
ghost use Rattle.board.specs.Boards.{state_of, lent_by};
ghost use Rattle.market.specs.Calls.{Called, Lasts, lent_calls};

use super::Market;
use board::Board;
use orders::order::{Call, Trade};
use register::contract::Register;
use rules::fault::MarketFault;
use rules::outcome::Outcome;
use std::alloc::{AllocError, Global};

impl<'r, R: Register> Market<'r, R> {
    // Makes a call of any kind.
    pub fn make(
        &mut self,
        tape: &mut [Trade],
        strip: &mut [u8],
        call: Call,
    ) -> Result<Outcome, MarketFault>
        ensures { Called R.rows R.rest (lent_by tape.old strip.old) call result self.old self.new tape.old tape.new strip.old strip.new }
    {
        match call {
            Call::Enter(entry) => self.enter(tape, strip, entry),
            Call::Amend {
                order,
                quantity,
                price,
                term,
            } => self.amend(tape, strip, order, quantity, price, term),
            Call::Cancel { order } => self.cancel(tape, strip, order),
            Call::Suspend { order } => self.suspend(tape, strip, order),
            Call::Resume { order } => self.resume(tape, strip, order),
            Call::Deposit {
                account,
                issue,
                quantity,
            } => self.deposit(account, issue, quantity),
            Call::Withdraw {
                account,
                issue,
                quantity,
            } => self.withdraw(account, issue, quantity),
            Call::Reference { issue, price } => self.reference(issue, price),
            Call::Open => self.open(tape, strip),
            Call::Close => self.close(),
        }
    }

    // Makes the calls one after another, each with the same tape and strip. Without the memory for the outcomes no call is made.
    // A loop and no chain: of what a closure changes nothing is known after the chain.
    pub fn make_all(
        &mut self,
        heap: Global,
        tape: &mut [Trade],
        strip: &mut [u8],
        calls: &[Call],
    ) -> Result<Vec<Result<Outcome, MarketFault>>, AllocError>
        ensures does { IfOk result (λ v. (v.items, state_of self.new.board (R.rows self.new.register.now) tape.new) ≡ run_of (state_of self.old.board (R.rows self.old.register.now) tape.old) (lent_calls (lent_by tape.old strip.old) calls.now)) }
        ensures untouched { is_err result ≡ true → (self.new.board ≡ self.old.board) × (self.new.register.now ≡ self.old.register.now) × (tape.new ≡ tape.old) }
        ensures lasts { Lasts R.rest self.old self.new tape.old tape.new strip.old strip.new }
    {
        let mut outcomes = Vec::with_capacity(heap, calls.len())?;
        for call in calls {
            let outcome = self.make(tape, strip, *call);
            outcomes.push_reserved(outcome);
        }
        Ok(outcomes)
    }
}

// Sets a market up over the register and makes the calls, each with the same tape and strip. Answers the market's own records at the end, and what each call answered.
// Without the memory for the outcomes no call is made.
pub fn run<R: Register>(
    heap: Global,
    register: &mut R,
    tape: &mut [Trade],
    strip: &mut [u8],
    calls: &[Call],
) -> Result<(Board, Vec<Result<Outcome, MarketFault>>), AllocError>
    ensures does { IfOk result (λ x. (x.1.items, state_of x.0 (R.rows register.new) tape.new) ≡ run_of (set_up (R.rows register.old)) (lent_calls (lent_by tape.old strip.old) calls.now)) }
    ensures rest { IfOk result (λ x. drop x.0.used tape.new ≡ drop x.0.used tape.old) }
    ensures untouched { is_err result ≡ true → (register.new ≡ register.old) × (tape.new ≡ tape.old) }
    ensures strip { strip.new ≡ strip.old }
    ensures stays { R.rest register.new ≡ R.rest register.old }
{
    let mut market = Market::new(register);
    let outcomes = market.make_all(heap, tape, strip, calls)?;
    Ok((market.into_board(), outcomes))
}
