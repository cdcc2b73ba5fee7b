// A register over the caller's rows.
#![tactic(auto)]

ghost use Rattle.std.specs.Prelude.{◌≡◌, true};
ghost use Rattle.rows.specs.Checks.{Lent, acceptable, checked, lent, meant};
ghost use Rattle.register.specs.Rules.{lawful};

use register::fault::RegisterFault;
use register::holding::Row;
use register::store::Store;

mod scan;

// At most this many rows.
const MOST: usize = 4096;

// The flag stands beside the rows, and no Option holds them, since they are handed out whatever it says.
#[derive(Drop)]
pub struct RowRegister<'a> {
    rows: &'a mut [Row],
    usable: bool,
    ghost ruled: { lawful (meant usable rows.now) ≡ true },
}

// The rows keep every rule for rows.
#[tactic(auto, unfolding(register::specs::Rules::lawful))]
fn are_acceptable(rows: &[Row]) -> bool
    ensures { result ≡ acceptable rows.now }
{
    rows.len() <= MOST
        && scan::are_ascending(rows)
        && scan::are_in_range(rows)
        && scan::are_capped(rows)
}

// The fault of rows that break a rule.
pub fn check(rows: &[Row]) -> Result<(), RegisterFault>
    ensures { result ≡ checked rows.now }
{
    are_acceptable(rows)
        .then_some(())
        .ok_or(RegisterFault::BadRows)
}

impl<'a> RowRegister<'a> {
    // Over rows that the check turns down, a register with no open pair.
    pub fn new(rows: &'a mut [Row]) -> RowRegister<'a>
        ensures kept { result.rows.now ≡ rows.old }
        ensures named { result.rows.ghost_name ≡ rows.entry.ghost_name }
        ensures usable { result.usable ≡ acceptable rows.old }
    {
        let usable = are_acceptable(rows);
        RowRegister { rows, usable }
    }

    // The rows as they now are.
    pub fn rows(&self) -> &[Row]
        ensures { result.now ≡ self.now.rows.now }
    {
        &*self.rows
    }

    // The open pairs: none over rows that break a rule.
    fn open_rows(&self) -> &[Row]
        ensures { result.now ≡ meant self.now.usable self.now.rows.now }
    {
        if self.usable { self.rows } else { &[] }
    }
}

impl<'a> Store for RowRegister<'a> {
    ghost stored = { λ s. meant s.usable s.rows.now };

    ghost lawfully = { λ s. s.ruled };

    ghost Rest = { Lent };

    ghost rest = { λ s. lent s.rows.ghost_name s.usable s.rows.now };

    fn find(&self, account: u64, issue: u64) -> Option<usize> {
        scan::find(self.open_rows(), account, issue)
    }

    fn figures(&self, place: usize) -> (u64, u64) {
        let Row { free, held, .. } = self.rows[place];
        (free, held)
    }

    fn sum(&self, issue: u64) -> u64 {
        scan::total_within(self.open_rows(), issue).unwrap_or(0)
    }

    fn write(&mut self, place: usize, free: u64, held: u64) {
        let row = self.rows[place];
        self.rows[place] = Row { free, held, ..row };
    }
}
