// A guard over the caller's strip: when it goes, every byte of the strip is zero.
ghost use Rattle.std.specs.Prelude.{◌≡◌, ◌<◌, ◌==◌, length, fold, max, slice_set};
ghost use Rattle.std.specs.List.{list_all};
ghost use Rattle.orders.specs.Strip.{Zeros, clean};

// The most orders that are live at a time: so many places has the table, and so many bytes the strip.
// Clauses say 256 in digits, so that they bind this number too.
pub const PLACES: usize = 256;

// The greatest byte. A fold goes through all of them, and so many at once: a call asks for it before it knows whether its phase is right.
fn greatest(strip: &[u8]) -> u8
    ensures { result ≡ fold (λ m x. max m x) 0 strip.now }
{
    strip.iter().fold(0, |m, b| m.max(*b))
}

fn are_zeros(strip: &[u8]) -> bool
    ensures { result ≡ list_all (λ x. x == 0) strip.now }
{
    greatest(strip) == 0
}

// The strip is 256 zero bytes.
pub fn is_clean(strip: &[u8]) -> bool
    ensures { result ≡ clean strip.now }
{
    strip.len() == PLACES && are_zeros(strip)
}

pub struct Marks<'a>(pub &'a mut [u8]);

impl Drop for Marks<'_> {
    fn drop(self)
        ensures { Zeros self.exit.0.now }
    {
        self.0.fill(0);
        let Marks(_) = self;
    }
}

impl Marks<'_> {
    // Marks a place.
    pub fn mark(&mut self, place: usize)
        requires { place < length self.old.0.now }
        ensures bytes { self.new.0.now ≡ slice_set self.old.0.now place 1 }
        ensures name { self.new.0.ghost_name ≡ self.old.0.ghost_name }
    {
        self.0[place] = 1;
    }

    pub fn bytes(&self) -> &[u8]
        ensures { result.now ≡ self.now.0.now }
    {
        &self.0[..]
    }
}
