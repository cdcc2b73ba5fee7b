// What each register means and does.
ghost use Rattle.std.specs.Prelude.{◌≡◌, true, List, is_err};
ghost use Rattle.register.specs.declared.holding.Row.{Row};
ghost use Rattle.register.specs.declared.movers.Move.TheVariants.{Withdraw, Hold, Release};
ghost use Rattle.register.specs.Rules.{
  lawful,
  balance_of,
  total_of,
  answer,
  after,
  deposited,
  moved,
  settled,
};

use super::fault::RegisterFault;

// Account and issue stay two parameters: the calls of the market and its orders name them apart.
pub trait Register {
    // The open pairs with their shares, ascending by account, then issue.
    ghost rows: { Self → List Row };

    // What each `impl` shows: the rows keep the rules.
    ghost lawfully: { (s : Self) → lawful (rows s) ≡ true };

    // What no call changes: of a register in lent memory, whose it is.
    ghost Rest: { Type 0 };

    ghost rest: { Self → Rest };

    // Free and held shares of a pair as one answer, absent where it is not open.
    fn balance(&self, account: u64, issue: u64) -> Option<(u64, u64)>
        ensures { result ≡ balance_of account issue (rows self.now) };

    // Free plus held over the open pairs of an issue.
    fn total(&self, issue: u64) -> u64
        ensures { result ≡ total_of issue (rows self.now) };

    // Adds q to the free shares, unless the issue's total would pass its limit.
    fn deposit(&mut self, account: u64, issue: u64, q: u64) -> Result<(), RegisterFault>
        ensures answers { result ≡ answer (deposited account issue q (rows self.old)) }
        ensures leaves { rows self.new ≡ after (rows self.old) (deposited account issue q (rows self.old)) }
        ensures stays { rest self.new ≡ rest self.old }
        ensures keeps { is_err result ≡ true → self.new ≡ self.old };

    // Takes q from the free shares.
    fn withdraw(&mut self, account: u64, issue: u64, q: u64) -> Result<(), RegisterFault>
        ensures answers { result ≡ answer (moved Withdraw account issue q (rows self.old)) }
        ensures leaves { rows self.new ≡ after (rows self.old) (moved Withdraw account issue q (rows self.old)) }
        ensures stays { rest self.new ≡ rest self.old }
        ensures keeps { is_err result ≡ true → self.new ≡ self.old };

    // Moves q from free to held.
    fn hold(&mut self, account: u64, issue: u64, q: u64) -> Result<(), RegisterFault>
        ensures answers { result ≡ answer (moved Hold account issue q (rows self.old)) }
        ensures leaves { rows self.new ≡ after (rows self.old) (moved Hold account issue q (rows self.old)) }
        ensures stays { rest self.new ≡ rest self.old }
        ensures keeps { is_err result ≡ true → self.new ≡ self.old };

    // Moves q from held to free.
    fn release(&mut self, account: u64, issue: u64, q: u64) -> Result<(), RegisterFault>
        ensures answers { result ≡ answer (moved Release account issue q (rows self.old)) }
        ensures leaves { rows self.new ≡ after (rows self.old) (moved Release account issue q (rows self.old)) }
        ensures stays { rest self.new ≡ rest self.old }
        ensures keeps { is_err result ≡ true → self.new ≡ self.old };

    // Takes q from the seller's held shares and adds it to the buyer's free shares; one account may be both.
    // Four parameters: a register knows no trades.
    fn settle(&mut self, seller: u64, buyer: u64, issue: u64, q: u64) -> Result<(), RegisterFault>
        ensures answers { result ≡ answer (settled seller buyer issue q (rows self.old)) }
        ensures leaves { rows self.new ≡ after (rows self.old) (settled seller buyer issue q (rows self.old)) }
        ensures stays { rest self.new ≡ rest self.old }
        ensures keeps { is_err result ≡ true → self.new ≡ self.old };
}
