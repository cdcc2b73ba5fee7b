// The movers, written and proved once for every store of rows.
ghost use Rattle.std.specs.Prelude.{◌≡◌, ◌+◌, ◌≤◌, true, is_err, IfOk};
ghost use Rattle.register.specs.Rules.{limit, answer, after, figures_after, moved};

use super::contract::Register;
use super::fault::RegisterFault;
use super::store::Store;

// What an issue's total may not pass.
pub const LIMIT: u64 = 1_000_000_000_000;

// The movers that look at one pair alone. Not closures: the clauses name a mover by its case, where of a closure they would have to say what each call answers.
#[derive(Clone, Copy, PartialEq, Eq, Debug)]
pub enum Move {
    Withdraw,
    Hold,
    Release,
}

impl Move {
    // Free and held shares after a move of q.
    fn figures(self, q: u64, free: u64, held: u64) -> Result<(u64, u64), RegisterFault>
        requires { free + held ≤ limit }
        ensures value { result ≡ figures_after self q free held }
        ensures no_more { IfOk result (λ p. p.0 + p.1 ≤ free + held) }
    {
        match self {
            Move::Withdraw => {
                let free = free.checked_sub(q).ok_or(RegisterFault::ShortFree)?;
                Ok((free, held))
            }
            Move::Hold => {
                let free = free.checked_sub(q).ok_or(RegisterFault::ShortFree)?;
                Ok((free, held + q))
            }
            Move::Release => {
                let held = held.checked_sub(q).ok_or(RegisterFault::ShortHeld)?;
                Ok((free + q, held))
            }
        }
    }
}

// Withdraw, hold or release.
#[tactic(auto, using(crate::proofs::Moves::shifts))]
fn shift<T: Store>(
    t: &mut T,
    m: Move,
    account: u64,
    issue: u64,
    q: u64,
) -> Result<(), RegisterFault>
    ensures answers { result ≡ answer (moved m account issue q (T.stored t.old)) }
    ensures leaves { T.stored t.new ≡ after (T.stored t.old) (moved m account issue q (T.stored t.old)) }
    ensures stays { T.rest t.new ≡ T.rest t.old }
    ensures keeps { is_err result ≡ true → t.new ≡ t.old }
{
    let k = t.find(account, issue).ok_or(RegisterFault::NotOpen)?;
    let (free, held) = t.figures(k);
    let (free, held) = m.figures(q, free, held)?;
    t.write(k, free, held);
    Ok(())
}

// Every store of rows is a register.
impl<T: Store> Register for T {
    ghost rows = { T.stored };

    ghost lawfully = { T.lawfully };

    ghost Rest = { T.Rest };

    ghost rest = { T.rest };

    fn balance(&self, account: u64, issue: u64) -> Option<(u64, u64)> {
        self.find(account, issue).map(|k| self.figures(k))
    }

    fn total(&self, issue: u64) -> u64 {
        self.sum(issue)
    }

    #[tactic(auto, using(crate::proofs::Moves::deposits))]
    fn deposit(&mut self, account: u64, issue: u64, q: u64) -> Result<(), RegisterFault> {
        let k = self.find(account, issue).ok_or(RegisterFault::NotOpen)?;
        let total = self.sum(issue);
        if q > LIMIT - total {
            return Err(RegisterFault::OverTotal);
        }
        let (free, held) = self.figures(k);
        self.write(k, free + q, held);
        Ok(())
    }

    fn withdraw(&mut self, account: u64, issue: u64, q: u64) -> Result<(), RegisterFault> {
        shift(self, Move::Withdraw, account, issue, q)
    }

    fn hold(&mut self, account: u64, issue: u64, q: u64) -> Result<(), RegisterFault> {
        shift(self, Move::Hold, account, issue, q)
    }

    fn release(&mut self, account: u64, issue: u64, q: u64) -> Result<(), RegisterFault> {
        shift(self, Move::Release, account, issue, q)
    }

    fn settle(&mut self, seller: u64, buyer: u64, issue: u64, q: u64) -> Result<(), RegisterFault> {
        let from = self.find(seller, issue).ok_or(RegisterFault::NotOpen)?;
        let to = self.find(buyer, issue).ok_or(RegisterFault::NotOpen)?;
        let (free, held) = self.figures(from);
        let held = held.checked_sub(q).ok_or(RegisterFault::ShortHeld)?;
        self.write(from, free, held);
        // One account may be both, so the buyer's shares are read after the seller's are written.
        let (free, held) = self.figures(to);
        self.write(to, free + q, held);
        Ok(())
    }
}
