// What a line may say.
ghost use Rattle.std.specs.Prelude.{ℕ, List};

// A kind of line: each of its values has a text.
pub trait Form {
    type Value: Copy;

    // The bytes, line feed and all, spell the value.
    ghost spells: { Self.Value → List ℕ → Type 0 };
}

// The first column, from 1, at which no form's text goes on so.
#[derive(Clone, Copy, PartialEq, Eq, Debug)]
pub struct Malformed {
    pub column: usize,
}
