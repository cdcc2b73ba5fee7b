// The lines of a statement, for any register.
ghost use Rattle.std.specs.Prelude.{◌≡◌, ◌++◌, Some, string_bytes, OnOk};
ghost use Rattle.std.specs.Fmt.{WritesOnOk};
ghost use Rattle.register.specs.Rules.{fault_number};
ghost use Rattle.statements.specs.Statement.{balance_at, balance_lines, has_issue, total_at, total_lines, refused_line, unread_line};

use register::contract::Register;
use register::fault::RegisterFault;
use register::holding::{LAST_ISSUE, Row};
use std::alloc::AllocError;
use std::fmt;

// The line that refuses all rows together.
#[derive(Clone, Copy, PartialEq, Eq, Debug)]
pub(crate) struct Refused(pub(crate) RegisterFault);

impl fmt::Display for Refused {
    ghost output = { λ r. Some (refused_line (fault_number r.0)) };

    fn fmt<W: fmt::Write>(&self, f: &mut fmt::Formatter<W>) -> fmt::Result {
        writeln!(f, "(refused {})", self.0.number())
    }
}

// The line of a malformed line, by its number and its column.
#[derive(Clone, Copy, PartialEq, Eq, Debug)]
pub(crate) struct Unread {
    pub(crate) number: usize,
    pub(crate) column: usize,
}

impl fmt::Display for Unread {
    ghost output = { λ u. Some (unread_line u.number u.column) };

    fn fmt<W: fmt::Write>(&self, f: &mut fmt::Formatter<W>) -> fmt::Result {
        let Unread { number, column } = self;
        writeln!(f, "(refused {number} 1 {column})")
    }
}

// The statement of a register over a list of pairs: each open pair's balance, then each issue's total.
#[derive(Drop)]
struct Statement<'a, R> {
    register: &'a R,
    pairs: &'a [Row],
}

impl<R: Register> Statement<'_, R> {
    // Whether a pair of the list is of the issue.
    fn names(&self, issue: u64) -> bool
        ensures { result ≡ has_issue issue self.now.pairs.now }
    {
        self.pairs.iter().any(|pair| pair.issue == issue)
    }

    // Writes one pair's balance, if it is open.
    fn write_pair<W: fmt::Write>(&self, f: &mut fmt::Formatter<W>, pair: &Row) -> fmt::Result
        ensures { WritesOnOk W.write_str_gives f.old result (balance_at pair.now.account pair.now.issue (R.rows self.now.register.now)) f.new }
    {
        let Row { account, issue, .. } = *pair;
        if let Some((free, held)) = self.register.balance(account, issue) {
            writeln!(f, "(balance {account} {issue} {free} {held})")?;
        }
        Ok(())
    }

    // Writes the balances of the pairs that the list names, in its order.
    fn write_balances<W: fmt::Write>(&self, f: &mut fmt::Formatter<W>) -> fmt::Result
        ensures { WritesOnOk W.write_str_gives f.old result (balance_lines self.now.pairs.now (R.rows self.now.register.now)) f.new }
    {
        for pair in self.pairs {
            self.write_pair(f, pair)?;
        }
        Ok(())
    }

    // Writes one issue's total, if the list names a pair of it.
    fn write_issue<W: fmt::Write>(&self, f: &mut fmt::Formatter<W>, issue: u64) -> fmt::Result
        ensures { WritesOnOk W.write_str_gives f.old result (total_at self.now.pairs.now (R.rows self.now.register.now) issue) f.new }
    {
        if self.names(issue) {
            writeln!(f, "(total {issue} {})", self.register.total(issue))?;
        }
        Ok(())
    }

    // Writes the totals of the issues that the list names, from 1 up.
    fn write_totals<W: fmt::Write>(&self, f: &mut fmt::Formatter<W>) -> fmt::Result
        ensures { WritesOnOk W.write_str_gives f.old result (total_lines self.now.pairs.now (R.rows self.now.register.now)) f.new }
    {
        for issue in 1..=LAST_ISSUE {
            self.write_issue(f, issue)?;
        }
        Ok(())
    }
}

impl<R: Register> fmt::Display for Statement<'_, R> {
    ghost output = { λ s. Some (balance_lines s.pairs.now (R.rows s.register.now) ++ total_lines s.pairs.now (R.rows s.register.now)) };

    fn fmt<W: fmt::Write>(&self, f: &mut fmt::Formatter<W>) -> fmt::Result {
        self.write_balances(f)?;
        self.write_totals(f)
    }
}

// Writes the statement of any register over a list of pairs.
pub fn write_statement<R: Register>(
    out: &mut String,
    register: &R,
    pairs: &[Row],
) -> Result<(), AllocError>
    ensures { OnOk result (string_bytes out.new ≡ string_bytes out.old ++ (balance_lines pairs.now (R.rows register.now) ++ total_lines pairs.now (R.rows register.now))) }
{
    write!(out, "{}", Statement { register, pairs })
}
