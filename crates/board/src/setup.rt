// The board at set-up.
ghost use Rattle.std.specs.Prelude.{◌≡◌, List};
ghost use Rattle.register.specs.declared.holding.Row.{Row};
ghost use Rattle.orders.specs.declared.order.Trade.{Trade};
ghost use Rattle.rules.specs.Market.{set_up};
ghost use Rattle.board.specs.Boards.{state_of};

use super::Board;
use book::table::Table;
use opening::trades::ISSUES;
use rules::outcome::Phase;

const FIRST_CLOSE: u64 = 1000;

impl Board {
    // Pre-open with no orders, and a previous close of 1,000 for every issue.
    pub fn new() -> Board
        ensures { (rows : List Row) (tape : List Trade) → state_of result rows tape ≡ set_up rows }
    {
        Board {
            table: Table::new(),
            phase: Phase::PreOpen,
            closes: [FIRST_CLOSE; ISSUES],
            used: 0,
        }
    }
}
