// Words and doubles in bytes, the lowest byte first, and back.
#![tactic(auto)]

ghost use Rattle.std.specs.Prelude.{◌≡◌, ℕ, ◌+◌, ◌*◌, ◌≤◌, ◌<◌, List, length};
ghost use Rattle.std.proofs.lemmas.List.Edits.{sets};
ghost use Rattle.std.specs.Float.{binary64};
ghost use Rattle.std.specs.Float.Ieee.{of_bits, to_bits};
ghost use Rattle.sequence.specs.Lists.{made, front};
ghost use Rattle.words.specs.Words.{at32, at64, word_at, double_at, bytes_of, pattern_bytes, joined};
ghost use Rattle.words.specs.Sizes.{four, eight, bytes_of_length, pattern_bytes_length};

// The word of four bytes.
pub fn word32(b: &[u8], at: usize) -> u32
    requires { at + 4 ≤ length b.now }
    ensures { result ≡ at32 b.now at }
{
    u32::from_le_bytes([b[at], b[at + 1], b[at + 2], b[at + 3]])
}

// The word of eight bytes.
pub fn word64(b: &[u8], at: usize) -> u64
    requires { at + 8 ≤ length b.now }
    ensures { result ≡ at64 b.now at }
{
    u64::from_le_bytes([
        b[at],
        b[at + 1],
        b[at + 2],
        b[at + 3],
        b[at + 4],
        b[at + 5],
        b[at + 6],
        b[at + 7],
    ])
}

// The double of a bit pattern, also of a NaN's.
pub fn number(bits: u64) -> f64
    ensures { result ≡ of_bits binary64 bits }
{
    if 0x7ff0_0000_0000_0000 < bits % 0x8000_0000_0000_0000 {
        0.0 / 0.0
    } else {
        f64::from_bits(bits)
    }
}

// The bit pattern of a double: of a NaN the one with the sign clear and only the highest of the digits set.
pub fn pattern(x: f64) -> u64
    ensures { result ≡ to_bits binary64 x }
{
    if x != x {
        0x7ff8_0000_0000_0000
    } else {
        f64::to_bits(x)
    }
}

// The k lowest bytes of a number, from a place on.
pub fn put(out: &mut [u8], at: usize, k: usize, v: u64)
    requires { at + k ≤ length out.old }
    ensures { out.new ≡ sets out.old at (bytes_of k v) }
{
    let mut rest = v;
    // By an index: the invariant names by it the bytes that are still to be stored.
    for i in 0..k {
        out[at + i] = (rest % 256) as u8;
        rest /= 256;
    }
}

// Items that stand one after the other in bytes.
pub trait FromBytes: Copy {
    const SIZE: usize;

    ghost SIZE: { ℕ };

    // The item at an index.
    ghost nth: { List ℕ → ℕ → Self };

    fn get(b: &[u8], i: usize) -> Self
        requires { SIZE * (i + 1) ≤ length b.now }
        ensures { result ≡ nth b.now i };

    ghost some: { 0 < SIZE };
}

pub trait ToBytes: FromBytes {
    ghost bytes: { Self → List ℕ };

    // Its bytes at an index.
    fn put(self, out: &mut [u8], i: usize)
        requires { Self.SIZE * (i + 1) ≤ length out.old }
        ensures { out.new ≡ sets out.old (Self.SIZE * i) (bytes self) };

    ghost sized: { (x : Self) → length (bytes x) ≡ Self.SIZE };
}

impl FromBytes for u32 {
    const SIZE: usize = 4;

    ghost SIZE = { 4 };

    ghost nth = { word_at };

    ghost some = { four };

    fn get(b: &[u8], i: usize) -> u32 {
        word32(b, 4 * i)
    }
}

impl ToBytes for u32 {
    ghost bytes = { bytes_of 4 };

    ghost sized = { bytes_of_length 4 };

    fn put(self, out: &mut [u8], i: usize) {
        out[4 * i..4 * i + 4].copy_from_slice(&self.to_le_bytes());
    }
}

impl FromBytes for f64 {
    const SIZE: usize = 8;

    ghost SIZE = { 8 };

    ghost nth = { double_at };

    ghost some = { eight };

    fn get(b: &[u8], i: usize) -> f64 {
        number(word64(b, 8 * i))
    }
}

impl ToBytes for f64 {
    ghost bytes = { pattern_bytes };

    ghost sized = { pattern_bytes_length };

    fn put(self, out: &mut [u8], i: usize) {
        out[8 * i..8 * i + 8].copy_from_slice(&pattern(self).to_le_bytes());
    }
}

// Every item of a slice, from the bytes. By an index, since after a `zip` nothing is known of what was written through it.
pub fn decode<T: FromBytes>(bytes: &[u8], into: &mut [T])
    requires { T.SIZE * length into.old ≤ length bytes.now }
    ensures { into.new ≡ made (T.nth bytes.now) (length into.old) }
{
    for (i, x) in into.iter_mut().enumerate() {
        *x = T::get(bytes, i);
    }
}

// The bytes of a slice's items.
pub fn encode<T: ToBytes>(from: &[T], out: &mut [u8])
    requires { T.FromBytes.SIZE * length from.now ≤ length out.old }
    ensures out_after { out.new ≡ front (joined T.bytes from.now) out.old }
    ensures kept { length out.new ≡ length out.old }
{
    for (i, x) in from.iter().enumerate() {
        x.put(out, i);
    }
}
