// What the movers ask of a register's memory: to find a pair, and to read and write its shares.
ghost use Rattle.std.specs.Prelude.{◌≡◌, ◌+◌, ◌<◌, ◌≤◌, true, List, length, get_or, None, MatchOption, slice_index_or, slice_set};
ghost use Rattle.register.specs.declared.holding.Row.{Row};
ghost use Rattle.register.specs.Places.{Placed, no_row};
ghost use Rattle.register.specs.Rules.{limit, lawful, balance_of, total_of, figured};

pub trait Store {
    ghost stored: { Self → List Row };

    // What each `impl` shows: the rows keep the rules.
    ghost lawfully: { (s : Self) → lawful (stored s) ≡ true };

    // What no call changes: of a store in lent memory, whose it is.
    ghost Rest: { Type 0 };

    ghost rest: { Self → Rest };

    // The pair's place, absent where it is not open.
    fn find(&self, account: u64, issue: u64) -> Option<usize>
        ensures { MatchOption result (balance_of account issue (stored self.now) ≡ None) (λ k. Placed account issue (stored self.now) k) };

    // Free and held shares at a place.
    fn figures(&self, place: usize) -> (u64, u64)
        requires { place < length (stored self.now) }
        ensures { result ≡ ((get_or (stored self.now) place no_row).free, (get_or (stored self.now) place no_row).held) };

    fn sum(&self, issue: u64) -> u64
        ensures { result ≡ total_of issue (stored self.now) };

    // New shares at a place: the total stays within its limit.
    fn write(&mut self, place: usize, free: u64, held: u64)
        requires within { place < length (stored self.old) }
        requires fits { total_of (get_or (stored self.old) place no_row).issue (stored self.old) + (free + held) ≤ limit + ((get_or (stored self.old) place no_row).free + (get_or (stored self.old) place no_row).held) }
        ensures stays { rest self.new ≡ rest self.old }
        ensures sets { stored self.new ≡ slice_set (stored self.old) place (figured (slice_index_or (stored self.old) place no_row) free held) };
}
