// Text that is being written: a line, and room for the longest.
ghost use Rattle.std.specs.Prelude.{◌≡◌, ℕ, ◌+◌, ◌*◌, ◌<◌, ◌≤◌, List, [], ◌∷◌, ◌++◌, length, take};
ghost use Rattle.std.proofs.lemmas.List.Edits.{sets};
ghost use Rattle.tape.specs.Text.{digit_of, digits_of, places, decimal_of, hex_of, data_hex, data_text, no_text};
ghost use Rattle.tape.specs.Pieces.{line_room, ShowsText};

use std::marker::Model;

// The line of an item with 4,096 bytes of data, 4 + 1 + 8 + 1 + 8,192 + 1, and after it that of a notice, 4 + 1 + 8 + 1.
pub const LINE: usize = 8221;

#[derive(Drop)]
pub struct Line {
    bytes: [u8; LINE],
    len: usize,
}

// Clauses see the text that is written so far.
impl Model for Line {
    ghost Value = { List ℕ };

    ghost view = { λ l. take l.len l.bytes };

    ghost invariant = { λ l. l.len ≤ line_room };
}

impl Line {
    pub fn new() -> Line
        ensures { result ≡ no_text }
    {
        Line {
            bytes: [0; LINE],
            len: 0,
        }
    }

    pub(crate) fn clear(&mut self)
        ensures { self.new ≡ [] }
    {
        self.len = 0;
    }

    pub(crate) fn len(&self) -> usize
        ensures { result ≡ length self.now }
    {
        self.len
    }

    pub fn as_bytes(&self) -> &[u8]
        ensures { ShowsText self.now result.now }
    {
        &self.bytes[..self.len]
    }

    pub(crate) fn text(&mut self, text: &[u8])
        requires { length self.old + length text.now ≤ line_room }
        ensures { self.new ≡ self.old ++ text.now }
    {
        let end = self.len + text.len();
        self.bytes[self.len..end].copy_from_slice(text);
        self.len = end;
    }

    fn digits(&mut self, base: u64, width: usize, v: u64)
        requires { (length self.old + width ≤ line_room) × (2 ≤ base) × (base ≤ 16) }
        ensures { self.new ≡ self.old ++ digits_of base width v }
    {
        put_digits(&mut self.bytes, self.len, base, width, v);
        self.len += width;
    }

    pub(crate) fn hex(&mut self, width: usize, v: u64)
        requires { length self.old + width ≤ line_room }
        ensures { (self.new ≡ self.old ++ hex_of width v) × (length self.new ≡ length self.old + width) }
    {
        self.digits(16, width, v);
    }

    pub(crate) fn decimal(&mut self, n: u64)
        requires { length self.old + 20 ≤ line_room }
        ensures { (self.new ≡ self.old ++ decimal_of n) × (length self.new ≤ length self.old + 20) }
    {
        self.digits(10, places_of(n), n);
    }

    // Two digits a byte.
    fn pairs(&mut self, bytes: &[u8])
        requires { length self.old + 2 * length bytes.now ≤ line_room }
        ensures { self.new ≡ self.old ++ data_hex bytes.now }
    {
        put_bytes(&mut self.bytes, self.len, bytes);
        self.len += 2 * bytes.len();
    }

    // Data after a space, or nothing where there is none.
    pub(crate) fn data(&mut self, bytes: &[u8])
        requires { length self.old + 1 + 2 * length bytes.now ≤ line_room }
        ensures { (self.new ≡ self.old ++ data_text bytes.now) × (length self.new ≤ length self.old + 1 + 2 * length bytes.now) }
    {
        if !bytes.is_empty() {
            self.text(b" ");
            self.pairs(bytes);
        }
    }
}

fn digit(d: u64) -> u8
    requires { d < 16 }
    ensures { result ≡ digit_of d }
{
    let d = d as u8;
    if d < 10 { b'0' + d } else { b'A' - 10 + d }
}

// The last `width` digits of a number, written from the lowest to the highest. By hand, and no `write!`: the library says of what it
// prints which bytes come where it answers Ok, and not that it does, but no line of a printout may fail.
fn put_digits(out: &mut [u8], at: usize, base: u64, width: usize, v: u64)
    requires { (at + width ≤ length out.old) × (2 ≤ base) × (base ≤ 16) }
    ensures { out.new ≡ sets out.old at (digits_of base width v) }
{
    let mut rest = v;
    for left in (0..width).rev() {
        out[at + left] = digit(rest % base);
        rest /= base;
    }
}

// Two digits a byte, straight into the line's bytes: by `hex`, which moves the end of the line at each byte, 4,096 bytes of data took
// four to six times as long.
fn put_bytes(out: &mut [u8], at: usize, bytes: &[u8])
    requires { at + 2 * length bytes.now ≤ length out.old }
    ensures { out.new ≡ sets out.old at (data_hex bytes.now) }
{
    for (i, byte) in bytes.iter().enumerate() {
        put_digits(out, at + 2 * i, 16, 2, u64::from(*byte));
    }
}

// How many decimal digits a number has. The loop ends with the number and not after a count, so a `for` says no more.
fn places_of(n: u64) -> usize
    ensures { (result ≡ places n) × (result ≤ 20) }
{
    let mut k = 1;
    let mut rest = n;
    while 10 <= rest {
        rest /= 10;
        k += 1;
    }
    k
}
