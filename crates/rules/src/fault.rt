// Why the market refused; a fault of the register is kept whole.
ghost use Rattle.std.specs.Prelude.{◌≡◌};
ghost use Rattle.rules.specs.Faults.{fault_number};
ghost use Rattle.rules.specs.declared.fault.MarketFault.TheVariants.{InRegister};

use register::fault::RegisterFault;

#[derive(Clone, Copy, PartialEq, Eq, Debug)]
pub enum MarketFault {
    // the phase is not one in which the call is made
    WrongPhase,
    // the strip is not 256 zero bytes
    UncleanStrip,
    // the tape has too little room
    ShortTape,
    // the issue is not 1 to 16
    UnknownIssue,
    // the order's number was never given
    NeverGiven,
    // the order has ended
    OrderEnded,
    // the order to suspend is suspended, the one to resume works
    NothingToChange,
    // the price breaks its rule
    BadPrice,
    // the quantity is out of its bounds
    BadQuantity,
    // m is 0 or above the quantity
    BadLeast,
    // a market order finds no working order opposite
    NoneOpposite,
    // 256 orders are live
    BookFull,
    // every stamp is given
    StampsOut,
    // the register refused
    InRegister(RegisterFault),
}

impl MarketFault {
    // The number that is answered. A match, since a fault that keeps another has no number of its own to be cast.
    pub fn number(self) -> u64
        ensures { result ≡ fault_number self }
    {
        match self {
            MarketFault::WrongPhase => 2,
            MarketFault::UncleanStrip => 3,
            MarketFault::ShortTape => 4,
            MarketFault::UnknownIssue => 5,
            MarketFault::NeverGiven => 6,
            MarketFault::OrderEnded => 7,
            MarketFault::NothingToChange => 8,
            MarketFault::BadPrice => 9,
            MarketFault::BadQuantity => 10,
            MarketFault::BadLeast => 11,
            MarketFault::NoneOpposite => 12,
            MarketFault::BookFull => 14,
            MarketFault::StampsOut => 15,
            MarketFault::InRegister(RegisterFault::NotOpen) => 5,
            MarketFault::InRegister(RegisterFault::ShortFree) => 13,
            MarketFault::InRegister(RegisterFault::OverTotal) => 16,
            // neither comes out of a call
            MarketFault::InRegister(RegisterFault::ShortHeld | RegisterFault::BadRows) => 0,
        }
    }
}

impl From<RegisterFault> for MarketFault {
    ghost from_gives = { λ e r. r ≡ InRegister e };

    fn from(e: RegisterFault) -> MarketFault {
        MarketFault::InRegister(e)
    }
}
