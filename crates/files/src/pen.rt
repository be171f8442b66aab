// A pen over lent bytes: it counts all that it writes, and puts down what falls within the bytes.

ghost use Rattle.std.specs.Prelude.{◌≡◌, ℕ, ◌≤◌, codes, decimal};
ghost use Rattle.std.specs.Fmt.{signed_decimal};
ghost use Rattle.networks.specs.Limits.{most_counted};
ghost use Rattle.files.specs.Sheets.{inked};

use itoa::Buffer;

#[derive(Drop)]
pub(crate) struct Pen<'a> {
    out: &'a mut [u8],
    count: usize,
    ghost counted: { count ≤ most_counted },
}

impl<'a> Pen<'a> {
    ghost use Rattle.files.specs.Pens.{sheet};

    // At the first of these bytes.
    pub(crate) fn new(out: &'a mut [u8]) -> Pen<'a>
        ensures same_reference { result.out.ghost_name ≡ out.entry.ghost_name }
        ensures is { sheet result ≡ record { bytes = out.old; count = 0 } }
    {
        Pen { out, count: 0 }
    }

    // How many bytes it has written, also past the end of those lent.
    pub(crate) fn count(&self) -> usize
        ensures { result ≡ (sheet self.now).count }
    {
        self.count
    }

    // Writes a text.
    pub(crate) fn put(&mut self, text: &[u8])
        ensures same_reference { self.new.out.ghost_name ≡ self.old.out.ghost_name }
        ensures is { sheet self.new ≡ inked text.now (sheet self.old) }
    {
        let length = self.out.len();
        let start = self.count.min(length);
        self.count = self.count.saturating_add(text.len());
        let room = &mut self.out[start..self.count.min(length)];
        room.copy_from_slice(&text[..room.len()]);
    }

    // Writes a count.
    pub(crate) fn put_count(&mut self, number: usize)
        ensures same_reference { self.new.out.ghost_name ≡ self.old.out.ghost_name }
        ensures is { sheet self.new ≡ inked (decimal number) (sheet self.old) }
    {
        self.put(Buffer::new().format(number).as_bytes());
    }

    // Writes a number that may be below zero.
    pub(crate) fn put_number(&mut self, number: i64)
        ensures same_reference { self.new.out.ghost_name ≡ self.old.out.ghost_name }
        ensures is { sheet self.new ≡ inked (signed_decimal number) (sheet self.old) }
    {
        let mut digits = Buffer::new();
        self.put(digits.format(number).as_bytes());
    }

    // Ends a line.
    pub(crate) fn end(&mut self)
        ensures same_reference { self.new.out.ghost_name ≡ self.old.out.ghost_name }
        ensures is { sheet self.new ≡ inked (codes "))\n") (sheet self.old) }
    {
        self.put(b"))\n");
    }
}
