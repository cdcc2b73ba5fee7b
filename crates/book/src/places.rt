// The places of the order table.
ghost use Rattle.std.specs.Prelude.{◌≡◌, true, length};
ghost use Rattle.orders.specs.Book.{number_of, stamp_of};
ghost use Rattle.book.specs.Places.{Apart, all_bounded};

use orders::order::Order;
use orders::strip::PLACES;

mod amends;
mod lowest;
mod reads;
mod writes;

// An array and no collection: the market uses no heap, and the strip has a byte for each place.
// Each place is free or holds a live order: numbers and stamps differ, and every order is within its bounds.
#[derive(Drop)]
pub struct Places {
    slots: [Option<Order>; PLACES],
    ghost numbers: { Apart number_of slots },
    ghost stamps: { Apart stamp_of slots },
    ghost long: { length slots ≡ 256 },
    ghost valid: { all_bounded slots ≡ true },
}
