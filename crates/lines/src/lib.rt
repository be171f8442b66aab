// The lines of a network file, read token by token.
//
// A `Cursor` stands at a byte of a text. Each reading steps on past what it reads and answers it, or tells
// the fault; where it stops, and what it answers, is its rule (specs), also after a fault.
#![tactic(auto)]

ghost use Rattle.std.specs.Prelude.{◌≡◌, ℕ, ◌+◌, ◌^◌, ◌<◌, ◌≤◌, length, ◌≤ℤ◌, IfOk};
ghost use Rattle.networks.specs.Limits.{most_arcs};
ghost use Rattle.tokens.specs.Tokens.{Within, shape};
ghost use Rattle.lines.specs.Readings.{start_of, past, fault_at, ended};
ghost use Rattle.lines.specs.Lines.{shown_token, token_at, expects, starts, number_in, within_in, value_in, count_in, finishes, shown_pair, pair_of, low_in, high_in, bounds_in};

use networks::Bounds;
use std::marker::Model;
use tokens::{BoundsFault, Cause, LineFault, Spot, Token, front, value};

// Where the reading of a text is: the byte that is next, and the text from it on.
#[derive(Drop)]
pub struct Cursor<'a> {
    spot: Spot,
    rest: &'a [u8],
}

impl<'a> Model for Cursor<'a> {
    ghost use Rattle.std.specs.Prelude.{ℕ, ◌+◌, ◌^◌, ◌<◌, ◌≤◌, length};
    ghost use Rattle.lines.specs.Readings.{Reading};

    ghost Value = { Reading };

    ghost view = { λ c. record { spot = c.spot; rest = c.rest.now } };

    // Lines and places cannot outgrow their numbers.
    ghost invariant = { λ c. (1 ≤ c.spot.place) × (c.spot.line + c.spot.place + length c.rest.now < 2 ^ 64) };
}

// A number of a line: what it says, and where it stands.
#[derive(Clone, Copy, Debug, PartialEq, Eq)]
pub struct Numeral {
    pub value: i32,
    pub spot: Spot,
}

impl<'a> Cursor<'a> {
    // The first byte of a text.
    pub fn new(text: &'a [u8]) -> Cursor<'a>
        ensures { result ≡ start_of text.now }
    {
        Cursor {
            spot: Spot { line: 1, place: 1 },
            rest: text,
        }
    }

    // A byte in the midst of a text, which stands at this spot, with the text from it on.
    pub fn at(spot: Spot, rest: &'a [u8]) -> Cursor<'a>
        requires { (1 ≤ spot.place) × (spot.line + spot.place + length rest.now < 2 ^ 64) }
        ensures { result ≡ record { spot = spot; rest = rest.now } }
    {
        Cursor { spot, rest }
    }

    // The same place of the same text, to read from it once more.
    pub fn again(&self) -> Cursor<'a>
        ensures { result ≡ self.now }
    {
        Cursor {
            spot: self.spot,
            rest: self.rest,
        }
    }

    // The line of the next byte.
    pub fn line(&self) -> usize
        ensures { result ≡ self.now.spot.line }
    {
        self.spot.line
    }

    // How many bytes are left.
    pub fn left(&self) -> usize
        ensures { result ≡ length self.now.rest }
    {
        self.rest.len()
    }

    fn fault(&self, cause: Cause) -> LineFault
        ensures { result ≡ fault_at self.now cause }
    {
        LineFault {
            spot: self.spot,
            cause,
        }
    }

    // The token that is next.
    fn token(&self) -> Result<Token<'a>, LineFault>
        ensures within { IfOk result (λ t. Within t (length self.now.rest)) }
        ensures is { shown_token result ≡ token_at self.now }
    {
        let spot = self.spot;
        front(self.rest).map_err(|cause| LineFault { spot, cause })
    }

    // Steps over the token that is next; a line feed ends its line.
    fn step(&mut self, token: Token)
        requires { Within token (length self.old.rest) }
        ensures { self.new ≡ past (shape token.entry) self.old }
    {
        let bytes = token.bytes().len();
        self.rest = &self.rest[bytes..];
        let Spot { line, place } = self.spot;
        self.spot = match token {
            Token::LineFeed => Spot {
                line: line + 1,
                place: 1,
            },
            _ => Spot {
                line,
                place: place + bytes,
            },
        };
    }

    // Steps over the token with these bytes.
    pub fn expect(&mut self, due: &[u8]) -> Result<(), LineFault>
        ensures { ended result self.new ≡ expects due.now self.old }
    {
        let token = self.token()?;
        if token.bytes() != due {
            return Err(self.fault(Cause::NotDue));
        }
        self.step(token);
        Ok(())
    }

    // Steps over a bracket, a name and a space.
    pub fn start(&mut self, name: &[u8]) -> Result<(), LineFault>
        ensures { ended result self.new ≡ starts name.now self.old }
    {
        self.expect(b"(")?;
        self.expect(name)?;
        self.expect(b" ")
    }

    // The number that is next.
    pub fn number(&mut self) -> Result<Numeral, LineFault>
        ensures { ended result self.new ≡ number_in self.old }
    {
        let token = self.token()?;
        let Token::Number(bytes) = token else {
            return Err(self.fault(Cause::NotDue));
        };
        let spot = self.spot;
        self.step(token);
        Ok(Numeral {
            value: value(bytes),
            spot,
        })
    }

    // The number that is next, if it is from the least to the most.
    pub fn within(&mut self, least: i32, most: i32) -> Result<Numeral, LineFault>
        ensures within { IfOk result (λ n. (least ≤ℤ n.value) × (n.value ≤ℤ most)) }
        ensures is { ended result self.new ≡ within_in least most self.old }
    {
        let number = self.number()?;
        if !(least..=most).contains(&number.value) {
            return Err(LineFault {
                spot: number.spot,
                cause: Cause::Range,
            });
        }
        Ok(number)
    }

    // What the number that is next says, if it is from the least to the most.
    pub fn value_within(&mut self, least: i32, most: i32) -> Result<i32, LineFault>
        ensures within { IfOk result (λ n. (least ≤ℤ n) × (n ≤ℤ most)) }
        ensures is { ended result self.new ≡ value_in least most self.old }
    {
        let number = self.within(least, most)?;
        Ok(number.value)
    }

    // A count in brackets, after its name, if it is from the least to the most.
    pub fn count(&mut self, name: &[u8], least: usize, most: usize) -> Result<usize, LineFault>
        requires { (least ≤ most) × (most ≤ most_arcs) }
        ensures within { IfOk result (λ k. (least ≤ k) × (k ≤ most)) }
        ensures is { ended result self.new ≡ count_in name.now least most self.old }
    {
        self.start(name)?;
        let number = self.value_within(least as i32, most as i32)?;
        self.expect(b")")?;
        Ok(number as usize)
    }

    // Steps over the last bracket and the line feed.
    pub fn finish(&mut self) -> Result<(), LineFault>
        ensures { ended result self.new ≡ finishes self.old }
    {
        self.expect(b")")?;
        self.expect(b"\n")
    }

    // The lower bound, in brackets after its name.
    fn low(&mut self) -> Result<Numeral, LineFault>
        ensures { ended result self.new ≡ low_in self.old }
    {
        self.start(b"lo")?;
        let lo = self.number()?;
        self.expect(b")")?;
        Ok(lo)
    }

    // The upper bound, in brackets after its name, if the two make a pair of bounds.
    fn high(&mut self, lo: Numeral) -> Result<Bounds, LineFault>
        ensures { ended (shown_pair result) self.new ≡ high_in lo self.old }
    {
        self.start(b"hi")?;
        let hi = self.number()?;
        let bounds = pair(lo, hi)?;
        self.expect(b")")?;
        Ok(bounds)
    }

    // The lower and the upper bound.
    pub fn bounds(&mut self) -> Result<Bounds, LineFault>
        ensures { ended (shown_pair result) self.new ≡ bounds_in self.old }
    {
        let lo = self.low()?;
        self.expect(b" ")?;
        self.high(lo)
    }
}

// The pair of bounds that two numbers make; a fault stands at the upper one.
fn pair(lo: Numeral, hi: Numeral) -> Result<Bounds, BoundsFault>
    ensures { shown_pair result ≡ pair_of lo hi }
{
    Bounds::new(lo.value, hi.value).map_err(|stop| BoundsFault {
        spot: hi.spot,
        stop,
    })
}
