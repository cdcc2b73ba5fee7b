// The first entry by rank, of any kind of entry that has one: the one way in which orders and candidates are found.
ghost use Rattle.std.specs.Prelude.{◌≡◌, ℕ, ◌<◌, Bool, Option, nat_lt};
ghost use Rattle.std.specs.Cmp.{IsStrictWeakOrder};
ghost use Rattle.orders.specs.Search.{First, chosen};
ghost use Rattle.std.proofs.lemmas.List.MinMax.{IsStrictWeakOrder-by_number};

// What has a rank: `before x y` says that x comes before y.
pub trait Ranked {
    ghost before: { Self → Self → Bool };

    fn precedes(&self, other: &Self) -> bool
        ensures { result ≡ before self.now other.now };

    ghost ranks: { IsStrictWeakOrder before };
}

// Numbers rank by their size.
impl Ranked for u64 {
    ghost before = { nat_lt };

    ghost ranks = { IsStrictWeakOrder-by_number (λ (n : ℕ). n) };

    fn precedes(&self, other: &u64) -> bool {
        *self < *other
    }
}

// The best so far gives way to the entry x at this place if there is none yet or x comes before it.
fn choose<T: Ranked + Copy>(best: &mut Option<(usize, T)>, place: usize, x: T)
    ensures { best.new ≡ chosen T.before best.old place x }
{
    if best.is_none_or(|(_, y)| x.precedes(&y)) {
        *best = Some((place, x));
    }
}

// The first entry by rank, with its place, of those that `look` finds at the places below `places`: one or none at each.
// A loop: of a chain of `filter_map` and `reduce` it was not proved that `look` may be called at each turn, since it may at places below `places` alone.
// A closure, and no iterator as the argument: callers ask for the place of what they find.
pub fn first<T: Ranked + Copy, F: Fn(usize) -> Option<T>>(
    places: usize,
    look: F,
) -> Option<(usize, T)>
    requires { (i : ℕ) → i < places → F.pre look i }
    ensures { (at : ℕ → Option T) → ((i : ℕ) (r : Option T) → i < places → F.post look i r → r ≡ at i) → First T.Ranked.before at places result }
{
    let mut best = None;
    for place in 0..places {
        if let Some(x) = look(place) {
            choose(&mut best, place, x);
        }
    }
    best
}
