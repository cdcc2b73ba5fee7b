// What stands next on a line.
ghost use Rattle.std.specs.Prelude.{◌≡◌, ℕ, ◌<◌, true, false, ◌++◌, length, drop, slice_index};
ghost use Rattle.text.specs.Tokens.{TokenAt};

// A token; words and numbers are parts of the line.
#[derive(Clone, Copy, PartialEq, Eq, Debug)]
pub enum Token<'a> {
    Open,
    Close,
    Space,
    Word(&'a [u8]),
    Number(&'a [u8]),
    Other,
    End,
}

// The longest front of s whose bytes all pass.
fn run<P: Fn(u8) -> bool>(s: &[u8], passes: P) -> &[u8]
    requires { P.IsAlwaysCallable passes }
    ensures front { s.now ≡ result.now ++ drop (length result.now) s.now }
    ensures all { (k : ℕ) → k < length result.now → P.post passes (slice_index result.now k) true }
    ensures stops { length result.now < length s.now → P.post passes (slice_index s.now (length result.now)) false }
{
    let n = s.iter().position(|b| !passes(*b)).unwrap_or(s.len());
    &s[..n]
}

// The token that a rest of a line begins with.
pub fn first_token(rest: &[u8]) -> Token<'_>
    ensures { TokenAt rest.now result }
{
    match rest {
        [] => Token::End,
        [b'(', ..] => Token::Open,
        [b')', ..] => Token::Close,
        [b' ', ..] => Token::Space,
        [b'a'..=b'z', ..] => Token::Word(run(rest, |b| matches!(b, b'a'..=b'z'))),
        [b'0'..=b'9', ..] => Token::Number(run(rest, |b| matches!(b, b'0'..=b'9'))),
        _ => Token::Other,
    }
}
