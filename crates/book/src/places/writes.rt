// What changes the places, one at a time.
ghost use Rattle.std.specs.Prelude.{◌≡◌, ◌<◌, true, [], ◌∷◌, ◌++◌, length, Some, None, MatchOption, slice_set};
ghost use Rattle.orders.specs.Orders.{in_bounds};
ghost use Rattle.orders.specs.Book.{number_of, stamp_of, find, replaced, without, loosened, lowered, reduced};
ghost use Rattle.book.specs.Places.{at, book, Alone, Under, OwnStamp, bounded};
ghost use Rattle.orders.specs.declared.order.Order.{Order};

use super::Places;
use orders::order::{Order, Term};
use orders::strip::PLACES;

// A least term lasts through its first trade.
fn loosen(term: Term) -> Term
    ensures { result ≡ loosened term }
{
    match term {
        Term::Least(_) => Term::Plain,
        other => other,
    }
}

// Writes the order whole, with q less left.
fn reduce(o: &mut Order, q: u64)
    requires { q < o.old.left }
    ensures { o.new ≡ lowered q o.old }
{
    *o = Order {
        left: o.left - q,
        term: loosen(o.term),
        ..*o
    };
}

impl Places {
    pub fn new() -> Places
        ensures { book result.slots ≡ [] }
    {
        Places {
            slots: [None; PLACES],
        }
    }

    // Writes one place, every other stays as it is.
    pub(super) fn write(&mut self, place: usize, slot: Option<Order>)
        requires place { place < 256 }
        requires apart { (Alone number_of self.old.slots place slot) × (Alone stamp_of self.old.slots place slot) }
        requires bounds { bounded slot ≡ true }
        ensures { self.new.slots ≡ slice_set self.old.slots place slot }
    {
        self.slots[place] = slot;
    }

    // The order at a place is lent, and written whole with q less left by what it is lent to.
    fn lower(&mut self, place: usize, q: u64)
        requires place { place < 256 }
        requires less { MatchOption (at self.old.slots place) ⊥ (λ o. q < o.left) }
        ensures { (o : Order) → at self.old.slots place ≡ Some o → self.new.slots ≡ slice_set self.old.slots place (Some (lowered q o)) }
    {
        if let Some(o) = &mut self.slots[place] {
            reduce(o, q);
        }
    }

    // One order more, of a number and a stamp above all others.
    pub fn add(&mut self, o: Order)
        requires room { length (book self.old.slots) < 256 }
        requires fresh { (Under number_of o.number (book self.old.slots)) × (Under stamp_of o.stamp (book self.old.slots)) }
        requires bounds { in_bounds o ≡ true }
        ensures { book self.new.slots ≡ book self.old.slots ++ (o ∷ []) }
    {
        if let Some(place) = self.free_place() {
            self.write(place, Some(o));
        }
    }

    // The order of o's number is replaced by o; where none has the number, nothing changes.
    pub fn replace(&mut self, o: Order)
        requires stamp { OwnStamp o (book self.old.slots) }
        requires bounds { in_bounds o ≡ true }
        ensures { book self.new.slots ≡ replaced o (book self.old.slots) }
    {
        if let Some((place, _)) = self.held(o.number) {
            self.write(place, Some(o));
        }
    }

    // The order of this number is taken out.
    pub fn remove(&mut self, number: u64) -> Option<Order>
        ensures order { result ≡ find number (book self.old.slots) }
        ensures book { book self.new.slots ≡ without number (book self.old.slots) }
    {
        let (i, o) = self.held(number)?;
        self.write(i, None);
        Some(o)
    }

    // The order at a place trades q: it has less left, or its place is free where it has nothing left.
    fn take_at(&mut self, place: usize, o: Order, q: u64)
        requires { (place < 256) × (at self.old.slots place ≡ Some o) }
        ensures { book self.new.slots ≡ reduced o.number q (book self.old.slots) }
    {
        if q >= o.left {
            self.write(place, None);
        } else {
            self.lower(place, q);
        }
    }

    // The order of this number trades q; where none has the number, nothing changes.
    pub fn take(&mut self, number: u64, q: u64)
        ensures { book self.new.slots ≡ reduced number q (book self.old.slots) }
    {
        if let Some((place, o)) = self.held(number) {
            self.take_at(place, o, q);
        }
    }
}
