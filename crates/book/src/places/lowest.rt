// The order of the lowest number, found as the first by rank of the numbers.
ghost use Rattle.std.specs.Prelude.{◌≡◌, ◌<◌, [], ◌∷◌, nat_lt, IfNone, Some, None, MatchOption, slice_set};
ghost use Rattle.std.specs.Option.{option_map};
ghost use Rattle.orders.specs.Search.{First};
ghost use Rattle.orders.specs.Book.{number_of, first_then};
ghost use Rattle.book.specs.Places.{at, book};

use super::Places;
use orders::order::Order;
use orders::ranked::first;
use orders::strip::PLACES;

impl Places {
    // The lowest number, with the place of its order.
    fn lowest_number(&self) -> Option<(usize, u64)>
        ensures { First nat_lt (λ i. option_map number_of (at self.now.slots i)) 256 result }
    {
        first(PLACES, |i| self.get(i).map(|o| o.number))
    }

    // The order of the lowest number, with its place.
    fn lowest(&self) -> Option<(usize, Order)>
        ensures { MatchOption result (book self.now.slots ≡ []) (λ b. (b.0 < 256) × (at self.now.slots b.0 ≡ Some b.1) × (book self.now.slots ≡ b.1 ∷ book (slice_set self.now.slots b.0 None))) }
    {
        let (place, _) = self.lowest_number()?;
        let o = self.get(place)?;
        Some((place, o))
    }

    // The order of the lowest number is taken out.
    pub fn take_first(&mut self) -> Option<Order>
        ensures book { book self.old.slots ≡ first_then result (book self.new.slots) }
        ensures none { IfNone result (book self.old.slots ≡ []) }
    {
        let (place, o) = self.lowest()?;
        self.write(place, None);
        Some(o)
    }
}
