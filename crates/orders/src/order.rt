// The words of the market: orders, trades and calls.
ghost use Rattle.std.specs.Prelude.{◌≡◌};

#[derive(Clone, Copy, Default, PartialEq, Eq, PartialOrd, Ord, Debug)]
pub enum Side {
    #[default]
    Buy,
    Sell,
}

// Plain, or special: all (all-or-none) or least m (minimum fill).
#[derive(Clone, Copy, Default, PartialEq, Eq, Debug)]
pub enum Term {
    #[default]
    Plain,
    All,
    Least(u64),
}

// How long the rest of an entry waits: until it trades or the market closes, or not at all.
#[derive(Clone, Copy, PartialEq, Eq, Debug)]
pub enum Life {
    Day,
    Now,
}

// A limit, or the price of the best order opposite. Not an Option: absent would not say where the limit comes from.
#[derive(Clone, Copy, PartialEq, Eq, Debug)]
pub enum Price {
    Limit(u64),
    Market,
}

// A live order.
#[derive(Clone, Copy, Default, PartialEq, Eq, Debug)]
pub struct Order {
    pub number: u64,
    pub account: u64,
    pub issue: u64,
    pub side: Side,
    pub price: u64,
    pub left: u64,
    pub term: Term,
    pub stamp: u64,
    pub working: bool,
}

#[derive(Clone, Copy, Default, PartialEq, Eq, Debug)]
pub struct Trade {
    pub issue: u64,
    pub buy: u64,
    pub sell: u64,
    pub buyer: u64,
    pub seller: u64,
    pub quantity: u64,
    pub price: u64,
}

impl Trade {
    // A buy and a sell trade so many shares of an issue at a price.
    pub fn between(issue: u64, buy: &Order, sell: &Order, quantity: u64, price: u64) -> Trade
        ensures { result ≡ record { issue = issue; buy = buy.now.number; sell = sell.now.number; buyer = buy.now.account; seller = sell.now.account; quantity = quantity; price = price } }
    {
        Trade {
            issue,
            buy: buy.number,
            sell: sell.number,
            buyer: buy.account,
            seller: sell.account,
            quantity,
            price,
        }
    }
}

// What an entry asks for.
#[derive(Clone, Copy, PartialEq, Eq, Debug)]
pub struct Entry {
    pub account: u64,
    pub issue: u64,
    pub side: Side,
    pub quantity: u64,
    pub price: Price,
    pub term: Term,
    pub life: Life,
}

#[derive(Clone, Copy, PartialEq, Eq, Debug)]
pub enum Call {
    Enter(Entry),
    Amend {
        order: u64,
        quantity: u64,
        price: u64,
        term: Term,
    },
    Cancel {
        order: u64,
    },
    Suspend {
        order: u64,
    },
    Resume {
        order: u64,
    },
    Deposit {
        account: u64,
        issue: u64,
        quantity: u64,
    },
    Withdraw {
        account: u64,
        issue: u64,
        quantity: u64,
    },
    Reference {
        issue: u64,
        price: u64,
    },
    Open,
    Close,
}
