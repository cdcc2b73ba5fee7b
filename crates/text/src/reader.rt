// A reader of one line, which knows the column at which the line stops being a form.
ghost use Rattle.std.specs.Prelude.{◌≡◌, ℕ, ◌+◌, ◌^◌, ◌<◌, ◌≤◌, length, drop, OnErr};
ghost use Rattle.std.specs.Str.Parse.{digits_value};
ghost use Rattle.text.specs.Tokens.{Digits, TokenAt};
ghost use Rattle.text.specs.Tree.{Gram, lit, lits, num, end_byte, Reads, Ends};

pub use crate::cursor::Reader;
use crate::form::{Form, Malformed};
use crate::tokens::{Token, first_token};

// What ends a number on a line.
#[derive(Clone, Copy, PartialEq, Eq, Debug)]
pub enum NumberEnd {
    Space = b' ' as isize,
    Close = b')' as isize,
}

impl From<NumberEnd> for u8 {
    ghost from_gives = { λ end b. b ≡ end_byte end };

    fn from(end: NumberEnd) -> u8 {
        end as u8
    }
}

// The digits that a number may have.
const MAX_DIGITS: usize = 13;

// The number that digits write.
fn digits_value(ds: &[u8]) -> u64
    requires digits { Digits ds.now }
    requires short { length ds.now ≤ 13 }
    ensures { result ≡ digits_value 10 ds.now }
{
    // A loop: in a `fold`, the closure would have to show for each digit that the number still fits.
    let mut n = 0;
    for b in ds {
        n = n * 10 + u64::from(*b - b'0');
    }
    n
}

impl<'a> Reader<'a> {
    pub fn new(line: &'a [u8]) -> Reader<'a>
        ensures line { result.line.now ≡ line.now }
        ensures at { result.at ≡ 0 }
    {
        Reader { line, at: 0 }
    }

    // The token that begins at the place reached.
    fn peek(&self) -> Token<'a>
        ensures { TokenAt (drop self.now.at self.now.line.now) result }
    {
        first_token(&self.line[self.at..])
    }

    // The fault of a byte that stands this far past the place reached: no form's text goes on with it.
    fn malformed(&self, past: usize) -> Malformed
        requires { self.now.at + past < 2 ^ 63 }
        ensures { result.column ≡ self.now.at + past + 1 }
    {
        Malformed {
            column: self.at + past + 1,
        }
    }

    // Passes the byte, which has to stand here.
    fn byte<F: Form>(&mut self, b: u8) -> Result<(), Malformed>
        ensures { (G : Gram F.Value) → Reads F.spells (lit b G) (λ _. G) self.old result self.new }
    {
        if self.line.get(self.at) != Some(&b) {
            return Err(self.malformed(0));
        }
        self.at += 1;
        Ok(())
    }

    // Passes the text, which has to stand here.
    pub fn literal<F: Form>(&mut self, text: &[u8]) -> Result<(), Malformed>
        ensures { (G : Gram F.Value) → Reads F.spells (lits text.now G) (λ _. G) self.old result self.new }
    {
        for b in text {
            self.byte::<F>(*b)?;
        }
        Ok(())
    }

    // Passes a number and the byte that has to end it. Where they don't stand here, the reader stays as it is, so that another end may be tried.
    pub fn number<F: Form>(&mut self, end: NumberEnd) -> Result<u64, Malformed>
        ensures reads { (K : ℕ → Gram F.Value) → Reads F.spells (num (end_byte end) K) K self.old result self.new }
        ensures stays { OnErr result ((self.new.at ≡ self.old.at) × (self.new.line ≡ self.old.line)) }
    {
        let Token::Number(ds) = self.peek() else {
            return Err(self.malformed(0));
        };
        if let [b'0', _, ..] = ds {
            return Err(self.malformed(1));
        }
        if ds.len() > MAX_DIGITS {
            return Err(self.malformed(MAX_DIGITS));
        }
        let mut after = Reader {
            line: self.line,
            at: self.at + ds.len(),
        };
        after.byte::<F>(u8::from(end))?;
        *self = after;
        Ok(digits_value(ds))
    }

    // The value, if its text ends where the line does.
    pub fn end<F: Form>(&self, value: F::Value) -> Result<F::Value, Malformed>
        ensures { Ends F.spells value self.now result }
    {
        if self.at < self.line.len() {
            return Err(self.malformed(0));
        }
        Ok(value)
    }
}
