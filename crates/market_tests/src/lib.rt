// The market at its edges, over the grid and over rows: every refusal, and the rules by worked days.
#![tactic(auto)]

#[cfg(test)]
mod tests {
    use grid::Grid;
    use market::Market;
    use orders::order::{Entry, Life, Price, Side, Term, Trade};
    use orders::strip::PLACES;
    use register::contract::Register;
    use register::holding::Row;
    use rows::RowRegister;
    use rules::fault::MarketFault;
    use rules::outcome::Outcome;
    use std::process::Abort;

    // 0 where the call was done, else the number of its refusal.
    fn code(r: Result<Outcome, MarketFault>) -> u64 {
        r.err().map_or(0, MarketFault::number)
    }

    // An entry of account 1 in issue 1, at a limit and for the day.
    fn plain(side: Side, quantity: u64, price: u64) -> Entry {
        Entry {
            account: 1,
            issue: 1,
            side,
            quantity,
            price: Price::Limit(price),
            term: Term::Plain,
            life: Life::Day,
        }
    }

    // 2: the phase.
    fn phases<R: Register>(rt: &impl Abort, register: &mut R) {
        let mut m = Market::new(register);
        let mut tape = [Trade::default(); 8];
        let mut strip = [0u8; PLACES];
        let buy = plain(Side::Buy, 1, 10);
        let at_market = Entry {
            price: Price::Market,
            ..buy
        };
        let now = Entry {
            life: Life::Now,
            ..buy
        };
        assert_eq!(rt; code(m.enter(&mut tape, &mut strip, at_market)), 2);
        assert_eq!(rt; code(m.enter(&mut tape, &mut strip, now)), 2);
        assert_eq!(rt; code(m.close()), 2);
        assert_eq!(rt; code(m.reference(1, 10)), 0);
        assert_eq!(rt; code(m.enter(&mut tape, &mut strip, buy)), 0);
        assert_eq!(rt; code(m.open(&mut tape, &mut strip)), 0);
        assert_eq!(rt; code(m.open(&mut tape, &mut strip)), 2);
        assert_eq!(rt; code(m.reference(1, 10)), 2);
        assert_eq!(rt; code(m.enter(&mut tape, &mut strip, now)), 0);
        assert_eq!(rt; code(m.close()), 0);
        assert_eq!(rt; code(m.close()), 2);
        assert_eq!(rt; code(m.enter(&mut tape, &mut strip, buy)), 2);
        assert_eq!(rt;
            code(m.amend(&mut tape, &mut strip, 1, 1, 10, Term::Plain)),
            2
        );
        assert_eq!(rt; code(m.cancel(&mut tape, &mut strip, 1)), 2);
        assert_eq!(rt; code(m.suspend(&mut tape, &mut strip, 1)), 2);
        assert_eq!(rt; code(m.resume(&mut tape, &mut strip, 1)), 2);
        assert_eq!(rt; code(m.deposit(1, 1, 1)), 2);
        assert_eq!(rt; code(m.withdraw(1, 1, 0)), 2);
    }

    #[test]
    fn phases_on_grid(rt: HostRuntime) {
        let mut grid = Grid::new();
        phases(&rt, &mut grid);
    }

    #[test]
    fn phases_on_rows(rt: HostRuntime) {
        let mut rows = [Row {
            account: 1,
            issue: 1,
            free: 5,
            held: 0,
        }];
        let mut register = RowRegister::new(&mut rows);
        phases(&rt, &mut register);
    }
}
