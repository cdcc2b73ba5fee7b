// The checks of an entry and of an amendment.
ghost use Rattle.std.specs.Prelude.{◌≡◌, ◌<◌, true, false, ◌&&◌, [], ◌∷◌, length, IfOk, Some, OnOk};
ghost use Rattle.std.specs.Result.{result_err};
ghost use Rattle.orders.specs.declared.order.Call.TheVariants.{Enter, Amend};
ghost use Rattle.orders.specs.Orders.{breaks_price, breaks_quantity, breaks_least, Bounded};
ghost use Rattle.orders.specs.Book.{find, best_opposite};
ghost use Rattle.rules.specs.Ledger.{limit_for, restamps};
ghost use Rattle.register.specs.declared.fault.RegisterFault.TheVariants.{ShortFree};
ghost use Rattle.rules.specs.declared.fault.MarketFault.TheVariants.{InRegister};
ghost use Rattle.rules.specs.Refusals.{first_refusal, limit_breaks, is_sell, too_few, terms_refusal, entry_refusal};
ghost use Rattle.book.specs.Table.{book_of};
ghost use Rattle.board.specs.Boards.{ledger_of, refused, Usable};

use super::refuse_if;
use crate::Board;
use crate::conditions::{is_open, limit_breaks, limit_for, restamps, too_few, wrong_to_enter};
use orders::bounds::{least_breaks, quantity_breaks};
use orders::order::{Entry, Order, Price, Side, Term};
use orders::strip::PLACES;
use register::contract::Register;
use register::fault::RegisterFault;
use rules::fault::MarketFault;
use rules::lent::Lent;

// The price, the quantity and the term of an order.
fn check_terms(price: Price, quantity: u64, term: Term) -> Result<(), MarketFault>
    ensures refusal { result_err result ≡ terms_refusal price quantity term }
    ensures price { OnOk result (limit_breaks price ≡ false) }
    ensures bounds { OnOk result ((breaks_quantity quantity ≡ false) × (breaks_least term quantity ≡ false)) }
{
    refuse_if(limit_breaks(price), MarketFault::BadPrice)?;
    refuse_if(quantity_breaks(quantity), MarketFault::BadQuantity)?;
    refuse_if(least_breaks(term, quantity), MarketFault::BadLeast)
}

// The pair's free shares cover a sell of the quantity.
fn check_free<R: Register>(
    register: &R,
    side: Side,
    account: u64,
    issue: u64,
    quantity: u64,
) -> Result<(), MarketFault>
    ensures { result_err result ≡ first_refusal ((is_sell side && too_few account issue quantity (R.rows register.now), InRegister ShortFree) ∷ []) }
{
    refuse_if(
        side == Side::Sell && too_few(register, account, issue, quantity),
        RegisterFault::ShortFree.into(),
    )
}

impl Board {
    // What an entry asks of the live orders, the register and the counters: its limit, if nothing turns it down.
    fn check_entry<R: Register>(&self, register: &R, entry: Entry) -> Result<u64, MarketFault>
        ensures refusal { result_err result ≡ entry_refusal (ledger_of self.now) (R.rows register.now) entry }
        ensures limit { IfOk result (λ p. p ≡ limit_for entry.price (best_opposite entry.issue entry.side (book_of self.now.table))) }
        ensures price { IfOk result (λ p. limit_breaks entry.price ≡ false → breaks_price p ≡ false) }
        ensures room { OnOk result (length (book_of self.now.table) < 256) }
        ensures stamp { OnOk result (self.now.table.given.stamp < 1000000) }
    {
        let best = self.table.best_opposite(entry.issue, entry.side);
        refuse_if(
            entry.price == Price::Market && best.is_none(),
            MarketFault::NoneOpposite,
        )?;
        check_free(
            register,
            entry.side,
            entry.account,
            entry.issue,
            entry.quantity,
        )?;
        refuse_if(self.table.live() >= PLACES, MarketFault::BookFull)?;
        refuse_if(self.table.stamps_out(), MarketFault::StampsOut)?;
        Ok(limit_for(entry.price, best))
    }

    // The limit of the entry, if nothing turns it down.
    pub fn check_enter<R: Register>(
        &self,
        register: &R,
        lent: Lent,
        entry: Entry,
    ) -> Result<u64, MarketFault>
        ensures refusal { result_err result ≡ refused self.now lent (R.rows register.now) (Enter entry) }
        ensures limit { IfOk result (λ p. p ≡ limit_for entry.price (best_opposite entry.issue entry.side (book_of self.now.table))) }
        ensures bounds { IfOk result (λ p. Bounded p entry.quantity entry.term) }
        ensures room { OnOk result (length (book_of self.now.table) < 256) }
        ensures stamp { OnOk result (self.now.table.given.stamp < 1000000) }
        ensures usable { OnOk result (Usable self.now lent) }
    {
        self.check_lent(wrong_to_enter(self.phase, entry), lent)?;
        refuse_if(
            !is_open(register, entry.account, entry.issue),
            RegisterFault::NotOpen.into(),
        )?;
        check_terms(entry.price, entry.quantity, entry.term)?;
        self.check_entry(register, entry)
    }

    // The order to amend, if nothing turns the call down.
    pub fn check_amend<R: Register>(
        &self,
        register: &R,
        lent: Lent,
        number: u64,
        quantity: u64,
        price: u64,
        term: Term,
    ) -> Result<Order, MarketFault>
        ensures refusal { result_err result ≡ refused self.now lent (R.rows register.now) (Amend number quantity price term) }
        ensures order { IfOk result (λ o. find number (book_of self.now.table) ≡ Some o) }
        ensures bounds { OnOk result (Bounded price quantity term) }
        ensures stamp { IfOk result (λ o. restamps (Some o) price term ≡ true → self.now.table.given.stamp < 1000000) }
        ensures usable { OnOk result (Usable self.now lent) }
    {
        let o = self.check_live(lent, number)?;
        check_terms(Price::Limit(price), quantity, term)?;
        check_free(
            register,
            o.side,
            o.account,
            o.issue,
            quantity.saturating_sub(o.left),
        )?;
        refuse_if(
            restamps(o, price, term) && self.table.stamps_out(),
            MarketFault::StampsOut,
        )?;
        Ok(o)
    }
}
