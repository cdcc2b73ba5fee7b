// The grid: accounts 1 to 64 open in issues 1 to 16.
#![tactic(auto)]

ghost use Rattle.std.specs.Prelude.{◌≡◌, ℕ, ◌+◌, ◌<◌, ◌⊎◌, true, length, slice_index, MatchOption};
ghost use Rattle.grid.specs.Cells.{grid_rows, new_balance};
ghost use Rattle.register.specs.Rules.{lawful, total_of, balance_of};

use register::holding::LAST_ISSUE;
use register::store::Store;

// The accounts and the issues of a grid, and a cell for each pair of them.
const ACCOUNTS: usize = 64;

const ISSUES: usize = LAST_ISSUE as usize;

const CELLS: usize = ACCOUNTS * ISSUES;

// The offset of n among the numbers from 1 to count.
fn offset(n: u64, count: usize) -> Option<usize>
    ensures { MatchOption result ((n ≡ 0) ⊎ (count < n)) (λ k. (k < count) × (n ≡ k + 1)) }
{
    let k = n.checked_sub(1)? as usize;
    (k < count).then_some(k)
}

// Free and held shares of one pair.
#[derive(Clone, Copy, PartialEq, Eq, Debug)]
pub struct Holding {
    pub free: u64,
    pub held: u64,
}

// Arrays: a grid uses no heap, and every pair of it is open.
#[derive(Drop)]
pub struct Grid {
    cells: [Holding; CELLS],
    totals: [u64; ISSUES],
    ghost wide: { length cells ≡ 1024 },
    ghost long: { length totals ≡ 16 },
    ghost kept: { (i : ℕ) → i < 16 → slice_index totals i ≡ total_of (i + 1) (grid_rows cells) },
    ghost ruled: { lawful (grid_rows cells) ≡ true },
}

impl Grid {
    // Every pair of the grid is open, with no shares.
    pub fn new() -> Grid
        ensures balances { (a i : ℕ) → balance_of a i (grid_rows result.cells) ≡ new_balance a i }
        ensures totals { (i : ℕ) → total_of i (grid_rows result.cells) ≡ 0 }
    {
        Grid {
            cells: [Holding { free: 0, held: 0 }; CELLS],
            totals: [0; ISSUES],
        }
    }
}

impl Store for Grid {
    ghost stored = { λ g. grid_rows g.cells };

    ghost lawfully = { λ g. g.ruled };

    ghost Rest = { Unit {0} };

    ghost rest = { λ _. tt };

    fn find(&self, account: u64, issue: u64) -> Option<usize> {
        Some(offset(account, ACCOUNTS)? * ISSUES + offset(issue, ISSUES)?)
    }

    #[tactic(auto, using(crate::proofs::Cells::grid_length, crate::proofs::Cells::grid_get_or))]
    fn figures(&self, place: usize) -> (u64, u64) {
        let Holding { free, held } = self.cells[place];
        (free, held)
    }

    fn sum(&self, issue: u64) -> u64 {
        offset(issue, ISSUES).map_or(0, |i| self.totals[i])
    }

    fn write(&mut self, place: usize, free: u64, held: u64) {
        let issue = place % ISSUES;
        let old = self.cells[place];
        let total = self.totals[issue] - (old.free + old.held);
        self.cells[place] = Holding { free, held };
        self.totals[issue] = total + (free + held);
    }
}
