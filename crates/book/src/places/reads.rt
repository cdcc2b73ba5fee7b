// What the places hold.
ghost use Rattle.std.specs.Prelude.{◌≡◌, ◌<◌, ◌≤◌, not, length, is_some, IfSome, position, count_by};
ghost use Rattle.std.specs.Option.{option_map};
ghost use Rattle.orders.specs.Book.{find};
ghost use Rattle.book.specs.Places.{at, book, holds};

use super::Places;
use orders::order::Order;

impl Places {
    // The order at a place.
    pub fn get(&self, place: usize) -> Option<Order>
        ensures { result ≡ at self.now.slots place }
    {
        *self.slots.get(place)?
    }

    // The place of the order of this number.
    pub(super) fn place_of(&self, number: u64) -> Option<usize>
        ensures { result ≡ position (holds number) self.now.slots }
    {
        self.slots
            .iter()
            .position(|slot| slot.is_some_and(|o| o.number == number))
    }

    // A free place.
    pub(super) fn free_place(&self) -> Option<usize>
        ensures { result ≡ position (λ s. not (is_some s)) self.now.slots }
    {
        self.slots.iter().position(|slot| slot.is_none())
    }

    // The order of this number, with its place.
    pub(super) fn held(&self, number: u64) -> Option<(usize, Order)>
        ensures order { option_map (λ b. b.1) result ≡ find number (book self.now.slots) }
        ensures place { IfSome result (λ b. (b.0 < 256) × (at self.now.slots b.0 ≡ Some b.1) × (b.1.number ≡ number)) }
    {
        let place = self.place_of(number)?;
        let o = self.get(place)?;
        Some((place, o))
    }

    // The live order of a number.
    pub fn order(&self, number: u64) -> Option<Order>
        ensures { result ≡ find number (book self.now.slots) }
    {
        self.held(number).map(|(_, o)| o)
    }

    fn taken(&self) -> usize
        ensures { result ≡ count_by is_some self.now.slots }
    {
        self.slots
            .iter()
            .map(|slot| usize::from(slot.is_some()))
            .sum()
    }

    // How many orders there are.
    pub fn live(&self) -> usize
        ensures count { result ≡ length (book self.now.slots) }
        ensures most { result ≤ 256 }
    {
        self.taken()
    }
}
