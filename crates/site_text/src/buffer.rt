// Bytes that are written one after the other into a lent buffer.
// The digits are those of the kit's `io` and not `write!`'s, which is no plainer: each call here requires its room, and
// `write!` would hand back an error to be met after each.
ghost use Rattle.std.specs.Prelude.{[], ◌∷◌, ◌+◌, ◌<◌, ◌≤◌, length};
ghost use Rattle.io.specs.Digits.{last_digits};
ghost use Rattle.sequence.specs.Answers.{number_of, count_of};
ghost use Rattle.site_text.specs.Text.{decimal_of, first_line, triplet_line};
ghost use Rattle.site_text.specs.Writing.{Adds};

use sequence::{Answer, Triplet, count, number};

// A lent buffer, of which so many bytes are written.
#[derive(Drop)]
pub struct Buffer<'a> {
    pub bytes: &'a mut [u8],
    pub len: usize,
}

impl Buffer<'_> {
    pub fn put(&mut self, b: u8)
        requires { self.old.len < length self.old.bytes.now }
        ensures { Adds (b ∷ []) self.old self.new }
    {
        self.bytes[self.len] = b;
        self.len += 1;
    }

    pub fn put_all(&mut self, from: &[u8])
        requires { self.old.len + length from.now ≤ length self.old.bytes.now }
        ensures { Adds from.now self.old self.new }
    {
        let end = self.len + from.len();
        self.bytes[self.len..end].copy_from_slice(from);
        self.len = end;
    }

    pub fn put_decimal(&mut self, n: u64)
        requires { self.old.len + 20 ≤ length self.old.bytes.now }
        ensures wrote { Adds (decimal_of n) self.old self.new }
        ensures most { self.new.len ≤ self.old.len + 20 }
    {
        let mut digits = [0u8; 20];
        let k = io::decimal(n, &mut digits);
        self.put_all(&digits[..k]);
    }

    // 16 hexadecimal digits.
    pub fn put_hex(&mut self, n: u64)
        requires { self.old.len + 16 ≤ length self.old.bytes.now }
        ensures { Adds (last_digits 16 16 n) self.old self.new }
    {
        let mut digits = [0u8; 16];
        let k = io::hex(n, 16, &mut digits);
        self.put_all(&digits[..k]);
    }

    // Number and count.
    pub fn put_first_line(&mut self, answer: Answer)
        requires { self.old.len + 42 ≤ length self.old.bytes.now }
        ensures wrote { Adds (first_line (number_of answer) (count_of answer)) self.old self.new }
        ensures most { self.new.len ≤ self.old.len + 42 }
    {
        self.put_decimal(u64::from(number(answer)));
        self.put(b' ');
        self.put_decimal(count(answer) as u64);
        self.put(b'\n');
    }

    // A triplet by its row, its column and its value's bits.
    pub fn put_triplet_line(&mut self, t: Triplet)
        requires { self.old.len + 59 ≤ length self.old.bytes.now }
        ensures wrote { Adds (triplet_line t) self.old self.new }
        ensures most { self.new.len ≤ self.old.len + 59 }
    {
        self.put_decimal(u64::from(t.row));
        self.put(b' ');
        self.put_decimal(u64::from(t.col));
        self.put(b' ');
        self.put_hex(words::pattern(t.value));
        self.put(b'\n');
    }
}
