// Looking through a slice of rows.
ghost use Rattle.std.specs.Prelude.{◌≡◌, ◌+◌, true, cond, None, Some, MatchOption, nat_le};
ghost use Rattle.std.specs.List.{list_all};
ghost use Rattle.std.specs.Ordering.{nat_cmp, ordering_then};
ghost use Rattle.rows.specs.Checks.{total_if_within};
ghost use Rattle.register.specs.Places.{Placed};
ghost use Rattle.register.specs.Rules.{limit, ascending, in_range, capped, precedes, lawful, balance_of, total_of};

use register::holding::{LAST_ACCOUNT, LAST_ISSUE, Row};
use register::movers::LIMIT;
use std::cmp::Ordering;

// r stands before s: by account, then issue.
fn stands_before(r: &Row, s: &Row) -> bool
    ensures { result ≡ precedes r.now s.now }
{
    (r.account, r.issue) < (s.account, s.issue)
}

// The row names a pair that may be.
fn is_in_range(r: &Row) -> bool
    ensures { result ≡ in_range r.now }
{
    (1..=LAST_ACCOUNT).contains(&r.account) && (1..=LAST_ISSUE).contains(&r.issue)
}

pub(crate) fn are_ascending(rows: &[Row]) -> bool
    ensures { result ≡ ascending rows.now }
{
    rows.is_sorted_by(stands_before)
}

pub(crate) fn are_in_range(rows: &[Row]) -> bool
    ensures { result ≡ list_all in_range rows.now }
{
    rows.iter().all(is_in_range)
}

// A sum, absent where it passes the limit.
fn sum_within(a: u64, b: u64) -> Option<u64>
    ensures { result ≡ cond (nat_le (a + b) limit) (Some (a + b)) None }
{
    a.checked_add(b).filter(|sum| *sum <= LIMIT)
}

// An issue's total, absent where it passes the limit.
pub(crate) fn total_within(rows: &[Row], issue: u64) -> Option<u64>
    ensures { result ≡ total_if_within issue rows.now }
{
    // A loop: `try_fold` was tried, and that its answer is the total stayed open.
    let mut sum = 0;
    for r in rows {
        if r.issue == issue {
            sum = sum_within(sum_within(sum, r.free)?, r.held)?;
        }
    }
    Some(sum)
}

// The issue's total is within the limit.
fn is_capped(rows: &[Row], issue: u64) -> bool
    ensures { result ≡ nat_le (total_of issue rows.now) limit }
{
    total_within(rows, issue).is_some()
}

pub(crate) fn are_capped(rows: &[Row]) -> bool
    ensures { result ≡ capped rows.now }
{
    // `1..=LAST_ISSUE` was tried: what the library proves of the numbers that a range yields is for `a..b`.
    (1..LAST_ISSUE + 1).all(|issue| is_capped(rows, issue))
}

// On which side of the pair the row stands: by account, then issue. Tested first for equality: a search by a key that is a pair takes twice the instructions.
fn side(row: &Row, account: u64, issue: u64) -> Ordering
    ensures { result ≡ ordering_then (nat_cmp row.now.account account) (nat_cmp row.now.issue issue) }
{
    if row.account == account {
        row.issue.cmp(&issue)
    } else {
        row.account.cmp(&account)
    }
}

// The place of a pair.
pub(crate) fn find(rows: &[Row], account: u64, issue: u64) -> Option<usize>
    requires { lawful rows.now ≡ true }
    ensures { MatchOption result (balance_of account issue rows.now ≡ None) (λ k. Placed account issue rows.now k) }
{
    rows.binary_search_by(|row| side(row, account, issue)).ok()
}
