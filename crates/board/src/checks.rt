// The checks: which fault turns a call down, and what is known where none does.
// `order`, `stamp` and `usable` stand in each check that knows them: they tie its answer to the board and to what is lent, so no type of one of the three can bear them.
// Where a contract has `no_lent` or `[]` for what is lent or the rows, the fault is the same for all of them: no condition of the call reads it.
ghost use Rattle.std.specs.Prelude.{◌≡◌, ◌<◌, ◌≤◌, [], ◌∷◌, IfOk, Some, Ok, Err, OnOk, if◌then◌else◌};
ghost use Rattle.std.specs.Result.{result_err};
ghost use Rattle.orders.specs.declared.order.Call.TheVariants.{Cancel, Suspend, Resume, Reference, Open, Close};
ghost use Rattle.orders.specs.Book.{find};
ghost use Rattle.rules.specs.declared.fault.MarketFault.TheVariants.{WrongPhase};
ghost use Rattle.rules.specs.Refusals.{first_refusal, is_closed, lent_refusal, tape_short};
ghost use Rattle.book.specs.Table.{book_of};
ghost use Rattle.board.specs.Boards.{ledger_of, lent_by, no_lent, refused, Usable};

use super::{Board, MOST_RECORDS};
use crate::conditions::is_known;
use orders::bounds::price_breaks;
use orders::order::{Order, Trade};
use orders::strip::is_clean;
use rules::fault::MarketFault;
use rules::lent::Lent;
use rules::outcome::Phase;

mod terms;

// A tape and a strip, as far as a refusal depends on them.
pub fn lent(tape: &[Trade], strip: &[u8]) -> Lent
    ensures { result ≡ lent_by tape.now strip.now }
{
    Lent {
        clean: is_clean(strip),
        room: tape.len(),
    }
}

// The fault turns the call down where the condition holds.
fn refuse_if(condition: bool, fault: MarketFault) -> Result<(), MarketFault>
    ensures { result ≡ (if condition then Err fault else Ok tt) }
{
    if condition { Err(fault) } else { Ok(()) }
}

impl Board {
    // The tape's length, at most 32,768, less the records used, is below live orders + 1.
    fn is_short(&self, room: usize) -> bool
        ensures { result ≡ tape_short room (ledger_of self.now) }
    {
        room.min(MOST_RECORDS).saturating_sub(self.used) < self.table.live() + 1
    }

    // What a call that may trade is lent: the phase must not be wrong, which the caller says, the strip must be clean, and the tape must have room.
    pub fn check_lent(&self, wrong: bool, lent: Lent) -> Result<(), MarketFault>
        ensures refusal { result_err result ≡ lent_refusal wrong lent (ledger_of self.now) }
        ensures usable { OnOk result (Usable self.now lent) }
    {
        refuse_if(wrong, MarketFault::WrongPhase)?;
        refuse_if(!lent.clean, MarketFault::UncleanStrip)?;
        refuse_if(self.is_short(lent.room), MarketFault::ShortTape)
    }

    // A deposit or a withdrawal, before the register is asked.
    pub fn check_moving(&self) -> Result<(), MarketFault>
        ensures { result_err result ≡ first_refusal ((is_closed self.now.phase, WrongPhase) ∷ []) }
    {
        refuse_if(self.phase == Phase::Closed, MarketFault::WrongPhase)
    }

    // A cancel, and what every other call on a live order asks first: the order, if nothing turns the call down.
    pub fn check_live(&self, lent: Lent, number: u64) -> Result<Order, MarketFault>
        ensures refusal { result_err result ≡ refused self.now lent [] (Cancel number) }
        ensures order { IfOk result (λ o. find number (book_of self.now.table) ≡ Some o) }
        ensures usable { OnOk result (Usable self.now lent) }
    {
        self.check_lent(self.phase == Phase::Closed, lent)?;
        refuse_if(self.table.never_given(number), MarketFault::NeverGiven)?;
        self.table.order(number).ok_or(MarketFault::OrderEnded)
    }

    pub fn check_suspend(&self, lent: Lent, number: u64) -> Result<Order, MarketFault>
        ensures refusal { result_err result ≡ refused self.now lent [] (Suspend number) }
        ensures order { IfOk result (λ o. find number (book_of self.now.table) ≡ Some o) }
        ensures usable { OnOk result (Usable self.now lent) }
    {
        let o = self.check_live(lent, number)?;
        refuse_if(!o.working, MarketFault::NothingToChange)?;
        Ok(o)
    }

    pub fn check_resume(&self, lent: Lent, number: u64) -> Result<Order, MarketFault>
        ensures refusal { result_err result ≡ refused self.now lent [] (Resume number) }
        ensures order { IfOk result (λ o. find number (book_of self.now.table) ≡ Some o) }
        ensures stamp { OnOk result (self.now.table.given.stamp < 1000000) }
        ensures usable { OnOk result (Usable self.now lent) }
    {
        let o = self.check_live(lent, number)?;
        refuse_if(o.working, MarketFault::NothingToChange)?;
        refuse_if(self.table.stamps_out(), MarketFault::StampsOut)?;
        Ok(o)
    }

    pub fn check_reference(&self, issue: u64, price: u64) -> Result<(), MarketFault>
        ensures refusal { result_err result ≡ refused self.now no_lent [] (Reference issue price) }
        ensures known { OnOk result ((1 ≤ issue) × (issue ≤ 16)) }
    {
        refuse_if(self.phase != Phase::PreOpen, MarketFault::WrongPhase)?;
        refuse_if(!is_known(issue), MarketFault::UnknownIssue)?;
        refuse_if(price_breaks(price), MarketFault::BadPrice)
    }

    pub fn check_open(&self, lent: Lent) -> Result<(), MarketFault>
        ensures refusal { result_err result ≡ refused self.now lent [] Open }
        ensures usable { OnOk result (Usable self.now lent) }
    {
        self.check_lent(self.phase != Phase::PreOpen, lent)
    }

    pub fn check_close(&self) -> Result<(), MarketFault>
        ensures { result_err result ≡ refused self.now no_lent [] Close }
    {
        refuse_if(self.phase != Phase::Continuous, MarketFault::WrongPhase)
    }
}
