// Numbers as little-endian bytes, pages made of fields, parts of pages and runs of words.
// Nothing here knows of the card.
#![tactic(auto)]

pub mod cells;
pub mod numbers;
pub mod words;

ghost use Rattle.std.specs.Prelude.{◌≡◌, [], ◌+◌, ◌≤◌, length};
ghost use Rattle.std.proofs.lemmas.List.Edits.{sets};
ghost use Rattle.octets.specs.Octets.{bytes_of, number_of, part, padded};
ghost use Rattle.octets.specs.Pages.{Within, fields_at, places_from, puts, place, read_at};

use crate::numbers::{short, word};
use crate::words::word_at;

// The lowest `width` bytes of `v`, lowest first, from place `at`. By hand, and not `to_le_bytes`: any width is promised.
pub fn put(buf: &mut [u8], at: usize, width: usize, v: u64)
    requires { at + width ≤ length buf.old }
    ensures { buf.new ≡ sets buf.old at (bytes_of width v) }
{
    let mut rest = v;
    for byte in &mut buf[at..at + width] {
        *byte = (rest % 256) as u8;
        rest /= 256;
    }
}

// The number in the `width` bytes from place `at`. By hand, and not `from_le_bytes`: must-fail `base_255` holds the base.
pub fn get(buf: &[u8], at: usize, width: usize) -> u64
    requires { (at + width ≤ length buf.now) × (width ≤ 8) }
    ensures { result ≡ number_of (part buf.now at width) }
{
    let mut x = 0;
    for i in (0..width).rev() {
        x = x * 256 + u64::from(buf[at + i]);
    }
    x
}

// Where a number lies on a page, and how many bytes it takes.
#[derive(Clone, Copy)]
pub struct Place {
    pub at: usize,
    pub width: usize,
}

// The page, or what lies on it, starts at `from`. A reader for each width, since each answers a type of its own.
impl Place {
    pub fn put(self, page: &mut [u8], from: usize, v: u64)
        requires { from + self.at + self.width ≤ length page.old }
        ensures { page.new ≡ sets page.old (from + self.at) (bytes_of self.width v) }
    {
        put(page, from + self.at, self.width, v);
    }

    pub fn short(self, bytes: &[u8], from: usize) -> u16
        requires { (self.width ≡ 2) × (from + self.at + 2 ≤ length bytes.now) }
        ensures { result ≡ read_at bytes.now from self }
    {
        short(bytes, from + self.at)
    }

    pub fn dword(self, bytes: &[u8], from: usize) -> u32
        requires { (self.width ≡ 4) × (from + self.at + 4 ≤ length bytes.now) }
        ensures { result ≡ read_at bytes.now from self }
    {
        word(bytes, from + self.at)
    }

    pub fn word(self, bytes: &[u8], from: usize) -> u64
        requires { (self.width ≡ 8) × (from + self.at + 8 ≤ length bytes.now) }
        ensures { result ≡ read_at bytes.now from self }
    {
        word_at(bytes, from + self.at)
    }
}

// The library copies and fills; what the bytes are then has a name in clauses, here and in `clear`. The first n bytes of the answer
// become the page's from place `from`, with zeros past its end.
pub fn copy_part(page: &[u8], from: usize, n: usize, answer: &mut [u8])
    requires { (from ≤ length page.now) × (n ≤ length answer.old) }
    ensures { answer.new ≡ sets answer.old 0 (padded page.now from n) }
{
    let m = n.min(page.len() - from);
    answer[..m].copy_from_slice(&page[from..from + m]);
    answer[m..n].fill(0);
}

// The first n bytes zero: a page with no field on it.
pub fn clear(buf: &mut [u8], n: usize)
    requires { n ≤ length buf.old }
    ensures { buf.new ≡ sets buf.old 0 (place n []) }
{
    buf[..n].fill(0);
}

// Numbers put at the places of what starts at `from`, in order. The places are a page's constants, which its reader has too: so they
// stand in a list of their own, beside that of the numbers.
pub fn fill(page: &mut [u8], from: usize, places: &[Place], values: &[u64])
    requires { Within (length page.old) from places.now }
    ensures { page.new ≡ puts page.old (fields_at (places_from from places.now) values.now) }
{
    for (p, v) in places.iter().zip(values) {
        p.put(page, from, *v);
    }
}
