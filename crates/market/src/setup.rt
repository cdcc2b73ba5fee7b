// A market is set up over a register, and ends.
ghost use Rattle.std.specs.Prelude.{◌≡◌, List};
ghost use Rattle.register.specs.declared.holding.Row.{Row};
ghost use Rattle.orders.specs.declared.order.Trade.{Trade};
ghost use Rattle.rules.specs.Market.{set_up};
ghost use Rattle.board.specs.Boards.{state_of};

use super::Market;
use board::Board;
use register::contract::Register;

impl<'r, R: Register> Market<'r, R> {
    pub fn new(register: &'r mut R) -> Market<'r, R>
        ensures board { (rows : List Row) (tape : List Trade) → state_of result.board rows tape ≡ set_up rows }
        ensures register { result.register.now ≡ register.old }
        ensures named { result.register.ghost_name ≡ register.entry.ghost_name }
    {
        Market {
            register,
            board: Board::new(),
        }
    }

    // The market ends and gives the register back as it is; its own records are left.
    pub fn into_board(self) -> Board
        ensures board { result ≡ self.entry.board }
        ensures register { self.exit.0.now ≡ self.entry.register.now }
    {
        let Market { register: _, board } = self;
        board
    }
}
