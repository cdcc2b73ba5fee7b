// The registers at their edges, and what a caller's rows hold once a register over them is let go.
#![tactic(auto)]

ghost use Rattle.std.specs.Prelude.{◌≡◌, true, false};
ghost use Rattle.rows.specs.Checks.{acceptable};
ghost use Rattle.register.specs.Rules.{answer, after, settled};

use register::contract::Register;
use register::fault::RegisterFault;
use register::holding::Row;
use rows::RowRegister;

// Settles over the caller's rows: they hold the new shares, or, where the check turns them down, what they held.
pub fn settle_in_rows(
    rows: &mut [Row],
    seller: u64,
    buyer: u64,
    issue: u64,
    q: u64,
) -> Result<(), RegisterFault>
    ensures answers { acceptable rows.old ≡ true → result ≡ answer (settled seller buyer issue q rows.old) }
    ensures leaves { acceptable rows.old ≡ true → rows.new ≡ after rows.old (settled seller buyer issue q rows.old) }
    ensures untouched { acceptable rows.old ≡ false → rows.new ≡ rows.old }
{
    let mut register = RowRegister::new(rows);
    register.settle(seller, buyer, issue, q)
}

#[cfg(test)]
mod tests {
    use super::*;
    use grid::Grid;
    use register::movers::LIMIT;

    // 0 where the call was done, else the number of its fault.
    fn number(r: Result<(), RegisterFault>) -> u64 {
        r.err().map_or(0, RegisterFault::number)
    }

    fn row(account: u64, issue: u64, free: u64, held: u64) -> Row {
        Row {
            account,
            issue,
            free,
            held,
        }
    }

    #[test]
    fn grid_pairs(rt: HostRuntime) {
        let mut g = Grid::new();
        assert_eq!(rt; g.balance(0, 1), None);
        assert_eq!(rt; g.balance(1, 0), None);
        assert_eq!(rt; g.balance(1, 17), None);
        assert_eq!(rt; g.balance(65, 16), None);
        assert_eq!(rt; g.balance(64, 16), Some((0, 0)));
        assert_eq!(rt; number(g.deposit(65, 1, 0)), 1);
        assert_eq!(rt; number(g.settle(1, 65, 1, 0)), 1);
        assert_eq!(rt; number(g.settle(65, 1, 1, 0)), 1);
        assert_eq!(rt; number(g.deposit(64, 16, 3)), 0);
        assert_eq!(rt; g.balance(64, 16), Some((3, 0)));
        assert_eq!(rt; g.total(0), 0);
        assert_eq!(rt; g.total(16), 3);
        assert_eq!(rt; g.total(17), 0);
    }

    #[test]
    fn grid_quantities(rt: HostRuntime) {
        let mut g = Grid::new();
        assert_eq!(rt; number(g.deposit(1, 1, u64::MAX)), 4);
        assert_eq!(rt; number(g.deposit(1, 1, LIMIT)), 0);
        assert_eq!(rt; number(g.deposit(2, 1, 1)), 4);
        assert_eq!(rt; number(g.deposit(2, 1, 0)), 0);
        assert_eq!(rt; number(g.withdraw(1, 1, u64::MAX)), 2);
        assert_eq!(rt; number(g.hold(1, 1, LIMIT + 1)), 2);
        assert_eq!(rt; number(g.hold(1, 1, LIMIT)), 0);
        assert_eq!(rt; number(g.release(1, 1, u64::MAX)), 3);
        assert_eq!(rt; number(g.release(1, 1, 1)), 0);
        assert_eq!(rt; number(g.settle(1, 2, 1, LIMIT)), 3);
        assert_eq!(rt; g.balance(1, 1), Some((1, LIMIT - 1)));
        assert_eq!(rt; g.total(1), LIMIT);
    }

    #[test]
    fn self_settlement(rt: HostRuntime) {
        let mut g = Grid::new();
        assert_eq!(rt; number(g.deposit(1, 1, 500)), 0);
        assert_eq!(rt; number(g.hold(1, 1, 200)), 0);
        assert_eq!(rt; number(g.settle(1, 1, 1, 201)), 3);
        assert_eq!(rt; number(g.settle(1, 1, 1, 150)), 0);
        assert_eq!(rt; g.balance(1, 1), Some((450, 50)));
        assert_eq!(rt; g.total(1), 500);
    }

    #[test]
    fn rows_in_range(rt: HostRuntime) {
        assert_eq!(rt; number(rows::check(&[])), 0);
        assert_eq!(rt; number(rows::check(&[row(0, 1, 0, 0)])), 5);
        assert_eq!(rt; number(rows::check(&[row(1_000_000, 1, 0, 0)])), 5);
        assert_eq!(rt; number(rows::check(&[row(999_999, 16, 0, 0)])), 0);
        assert_eq!(rt; number(rows::check(&[row(1, 0, 0, 0)])), 5);
        assert_eq!(rt; number(rows::check(&[row(1, 17, 0, 0)])), 5);
        assert_eq!(rt; number(rows::check(&[row(2, 1, 1, 0), row(2, 1, 0, 1)])), 5);
        assert_eq!(rt; number(rows::check(&[row(2, 2, 0, 0), row(2, 1, 0, 0)])), 5);
        assert_eq!(rt;
            number(rows::check(&[row(1, 16, 0, 0), row(2, 1, 0, 0)])),
            0
        );
    }

    #[test]
    fn rows_total(rt: HostRuntime) {
        assert_eq!(rt; number(rows::check(&[row(1, 1, LIMIT - 1, 1)])), 0);
        assert_eq!(rt; number(rows::check(&[row(1, 1, LIMIT, 1)])), 5);
        assert_eq!(rt;
            number(rows::check(&[row(1, 1, LIMIT, 0), row(2, 1, 0, 1)])),
            5
        );
        assert_eq!(rt;
            number(rows::check(&[row(1, 1, LIMIT, 0), row(2, 2, 0, LIMIT)])),
            0
        );
        assert_eq!(rt; number(rows::check(&[row(1, 1, u64::MAX, u64::MAX)])), 5);
    }

    #[test]
    fn rows_moved(rt: HostRuntime) {
        let mut list = [row(3, 2, 10, 0), row(3, 5, 0, 7), row(999_999, 5, 1, 1)];
        assert_eq!(rt; number(settle_in_rows(&mut list, 3, 999_999, 5, 8)), 3);
        assert_eq!(rt; number(settle_in_rows(&mut list, 3, 4, 5, 7)), 1);
        assert_eq!(rt; number(settle_in_rows(&mut list, 3, 999_999, 5, 7)), 0);
        let r = RowRegister::new(&mut list);
        assert_eq!(rt; r.balance(3, 2), Some((10, 0)));
        assert_eq!(rt; r.balance(3, 5), Some((0, 0)));
        assert_eq!(rt; r.balance(999_999, 5), Some((8, 1)));
        assert_eq!(rt; r.balance(4, 5), None);
        assert_eq!(rt; r.total(5), 9);
    }

    #[test]
    fn rows_turned_down(rt: HostRuntime) {
        let mut list = [row(3, 5, 10, 0), row(3, 2, 0, 7)];
        let mut r = RowRegister::new(&mut list);
        assert_eq!(rt; r.balance(3, 5), None);
        assert_eq!(rt; r.total(5), 0);
        assert_eq!(rt; number(r.deposit(3, 5, 1)), 1);
        assert_eq!(rt; list[0].free, 10);
        assert_eq!(rt; list[1].held, 7);
    }

    // Rows of the accounts from `first` up.
    fn numbered(list: &mut [Row], first: u64) {
        for (r, account) in list.iter_mut().zip(first..) {
            r.account = account;
        }
    }

    #[test]
    fn as_many_rows(rt: HostRuntime) {
        let mut list = [row(1, 1, 1, 0); 4097];
        numbered(&mut list, 1);
        assert_eq!(rt; number(rows::check(&list[0..4096])), 0);
        assert_eq!(rt; number(rows::check(&list)), 5);
    }
}
