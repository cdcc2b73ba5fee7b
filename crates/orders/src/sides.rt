// Tests of sides, terms and orders.
ghost use Rattle.std.specs.Prelude.{◌≡◌};
ghost use Rattle.orders.specs.Orders.{within, special, working_in, plain_in, working_opposite};

use crate::order::{Order, Side, Term};

impl Side {
    // The price is within the limit of an order on this side.
    pub fn is_within(self, limit: u64, price: u64) -> bool
        ensures { result ≡ within self limit price }
    {
        match self {
            Side::Buy => price <= limit,
            Side::Sell => limit <= price,
        }
    }
}

impl Term {
    pub fn is_special(self) -> bool
        ensures { result ≡ special self }
    {
        self != Term::Plain
    }
}

impl Order {
    // A working order of the issue on the side.
    pub fn is_working_in(&self, issue: u64, side: Side) -> bool
        ensures { result ≡ working_in issue side self.now }
    {
        self.issue == issue && self.side == side && self.working
    }

    // A working plain order of the issue on the side.
    pub fn is_plain_in(&self, issue: u64, side: Side) -> bool
        ensures { result ≡ plain_in issue side self.now }
    {
        self.is_working_in(issue, side) && !self.term.is_special()
    }

    // A working order of the issue on the other side.
    pub fn is_working_opposite(&self, issue: u64, side: Side) -> bool
        ensures { result ≡ working_opposite issue side self.now }
    {
        self.issue == issue && self.side != side && self.working
    }
}
