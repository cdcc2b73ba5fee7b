// Why a register refused.
ghost use Rattle.std.specs.Prelude.{◌≡◌};
ghost use Rattle.register.specs.Rules.{fault_number};

#[derive(Clone, Copy, PartialEq, Eq, Debug)]
pub enum RegisterFault {
    // a pair that the call names is not open
    NotOpen = 1,
    // free is below the quantity
    ShortFree = 2,
    // held is below the quantity
    ShortHeld = 3,
    // the issue's total would pass its limit
    OverTotal = 4,
    // the rows break a rule
    BadRows = 5,
}

impl RegisterFault {
    // The number that the rules give the fault.
    pub fn number(self) -> u64
        ensures { result ≡ fault_number self }
    {
        self as u64
    }
}
