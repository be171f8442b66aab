// Tokens: what stands at the front of a text. Words and numbers are parts of the text.

ghost use Rattle.std.specs.Prelude.{◌≡◌, ℕ, ◌+◌, ◌^◌, ◌<◌, ◌≤◌, length, drop, IfOk};
ghost use Rattle.std.specs.Char.{is_ascii_digit, is_ascii_lowercase};
ghost use Rattle.std.specs.List.{prefix_len};
ghost use Rattle.tokens.specs.Tokens.{sign_of, shape, bytes_of, shown, number_at, front_of, Within, decimal, value_of};

use crate::Cause;

#[derive(Clone, Copy, Debug, PartialEq, Eq)]
pub enum Token<'a> {
    Open,
    Close,
    Space,
    LineFeed,
    Word(&'a [u8]),
    // With its minus, if it has one.
    Number(&'a [u8]),
}

// The most digits of a number.
const MOST_DIGITS: usize = 7;

// How many letters stand at the front.
fn letters(s: &[u8]) -> usize
    ensures within { result ≤ length s.now }
    ensures is { result ≡ prefix_len is_ascii_lowercase s.now }
{
    s.iter().take_while(|b| b.is_ascii_lowercase()).count()
}

// How many digits stand at the front.
fn digits(s: &[u8]) -> usize
    ensures within { result ≤ length s.now }
    ensures is { result ≡ prefix_len is_ascii_digit s.now }
{
    s.iter().take_while(|b| b.is_ascii_digit()).count()
}

// What stands after the minus, or all where there is none.
fn unsigned<'a>(s: &'a [u8]) -> &'a [u8]
    ensures within { length result.now + sign_of s.now ≡ length s.now }
    ensures is { result.now ≡ drop (sign_of s.now) s.now }
{
    match s {
        [b'-', tail @ ..] => tail,
        _ => s,
    }
}

// The number at the front: a sign or none, then 1 to 7 digits, of which a zero stands alone.
fn number<'a>(s: &'a [u8]) -> Result<Token<'a>, Cause>
    ensures within { IfOk result (λ t. Within t (length s.now)) }
    ensures is { shown result ≡ number_at s.now }
{
    let tail = unsigned(s);
    let n = digits(tail);
    let whole = s.len() - tail.len() + n;
    if !(1..=MOST_DIGITS).contains(&n) || tail[0] == b'0' && whole > 1 {
        return Err(Cause::Number);
    }
    Ok(Token::Number(&s[..whole]))
}

// The token at the front.
pub fn front<'a>(s: &'a [u8]) -> Result<Token<'a>, Cause>
    ensures within { IfOk result (λ t. Within t (length s.now)) }
    ensures is { shown result ≡ front_of s.now }
{
    match *s.first().ok_or(Cause::End)? {
        b'(' => Ok(Token::Open),
        b')' => Ok(Token::Close),
        b' ' => Ok(Token::Space),
        b'\n' => Ok(Token::LineFeed),
        b'a'..=b'z' => Ok(Token::Word(&s[..letters(s)])),
        b'-' | b'0'..=b'9' => number(s),
        _ => Err(Cause::Byte),
    }
}

impl<'a> Token<'a> {
    pub fn bytes(self) -> &'a [u8]
        ensures { result.now ≡ bytes_of (shape self.entry) }
    {
        match self {
            Token::Open => b"(",
            Token::Close => b")",
            Token::Space => b" ",
            Token::LineFeed => b"\n",
            Token::Word(w) => w,
            Token::Number(w) => w,
        }
    }
}

// What at most 7 digits say.
#[tactic(auto, using(crate::proofs::Tens::most_tens))]
fn magnitude(digits: &[u8]) -> u32
    requires { length digits.now ≤ 7 }
    ensures within { result < 2 ^ 31 }
    ensures is { result ≡ decimal 0 digits.now }
{
    let mut v = 0;
    for b in digits {
        v = v * 10 + u32::from(b.saturating_sub(b'0'));
    }
    v
}

// What the bytes of a number say.
pub fn value(w: &[u8]) -> i32
    requires { length w.now ≤ sign_of w.now + 7 }
    ensures { result ≡ value_of w.now }
{
    match w {
        [b'-', digits @ ..] => -(magnitude(digits) as i32),
        _ => magnitude(w) as i32,
    }
}
