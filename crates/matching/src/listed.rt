// A row of a list of orders.
use orders::order::Order;

// An order with its place in the table. A row that is not used holds its default.
#[derive(Clone, Copy, Default, PartialEq, Eq, Debug)]
pub struct Listed {
    pub place: usize,
    pub order: Order,
}
