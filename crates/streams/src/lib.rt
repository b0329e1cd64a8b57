// Calls read from an input, and what they answered and left written to an output: for the programs that the trials drive. Whatever
// is read, no function here requires anything, so that no program owes a proof.
//
// A call is a head of 16 bytes, then the table's words, the answer buffer, the command and the data in. Head: 0 kind; 3:2 set;
// 7:4 count or milliseconds; 9:8 words of the table; 11:10, 13:12, 15:14 bytes of the answer buffer, of the command and of the
// data, which for set-up are the bodies. Kinds are those of a replay file, and 08h is a command that hands back its part.
//
// What is written: 1:0 status, 3:2 whether a notice goes beside it (1 or 0), 7:4 dword 0, 11:8 length of the data, 13:12 the
// identifier of the request that the notice completes; for 08h the part itself; then every word of the table and every byte of the
// answer buffer. All numbers are little-endian.
#![tactic(auto)]

ghost use Rattle.std.specs.Prelude.{◌≡◌, [], ◌&&◌, ◌+◌, ◌*◌, ◌≤◌, if◌then◌else◌, length, nat_le, take, OnOk};
ghost use Rattle.std.specs.Io.KnownBytes.{Appends, Consumes};
ghost use Rattle.octets.specs.Numbers.{number_at};
ghost use Rattle.octets.specs.Words.{word_size};
ghost use Rattle.streams.specs.Calls.{head_size, kind_of, word_bytes, reply_bytes};

use octets::numbers::{short, word};
use octets::words::{WORD, words_in, words_out};
use std::io;
use std::io::{ErrorKind, Read, Write};

pub const HEAD: usize = 16;

const REPLY: usize = 14;

// The number in some bytes of a head. Where they are not there it is 0, by the clause, and no kind has the number 0.
pub fn number(head: &[u8; HEAD], at: usize, width: usize) -> u64
    ensures { result ≡ (if nat_le (at + width) head_size && nat_le width word_size then number_at head.now at width else 0) }
{
    if width <= WORD && at <= HEAD && width <= HEAD - at {
        octets::get(head, at, width)
    } else {
        0
    }
}

// What a call is of.
#[derive(Clone, Copy, PartialEq, Eq)]
pub enum Kind {
    Command,
    Reads,
    Writes,
    Excursion,
    Tick,
    SetUp,
    CommandPart,
}

// The kind of a head; none where its number is none of theirs, which is no error, so no TryFrom.
pub fn kind_in(head: &[u8; HEAD]) -> Option<Kind>
    ensures { result ≡ kind_of (number_at head.now 0 1) }
{
    match number(head, 0, 1) {
        1 | 2 => Some(Kind::Command),
        3 => Some(Kind::Reads),
        4 => Some(Kind::Writes),
        5 => Some(Kind::Excursion),
        6 => Some(Kind::Tick),
        7 => Some(Kind::SetUp),
        8 => Some(Kind::CommandPart),
        _ => None,
    }
}

// How many words and bytes follow a head.
#[derive(Clone, Copy)]
pub struct Sizes {
    pub table: usize,
    pub answer: usize,
    pub command: usize,
    pub data: usize,
}

pub fn sizes_in(head: &[u8; HEAD]) -> Sizes
    ensures table { result.table ≡ number_at head.now 8 2 }
    ensures answer { result.answer ≡ number_at head.now 10 2 }
    ensures command { result.command ≡ number_at head.now 12 2 }
    ensures given { result.«data» ≡ number_at head.now 14 2 }
{
    Sizes {
        table: usize::from(short(head, 8)),
        answer: usize::from(short(head, 10)),
        command: usize::from(short(head, 12)),
        data: usize::from(short(head, 14)),
    }
}

// The set, the count and the milliseconds of a head.
pub fn set_in(head: &[u8; HEAD]) -> u16
    ensures { result ≡ number_at head.now 2 2 }
{
    short(head, 2)
}

pub fn count_in(head: &[u8; HEAD]) -> u16
    ensures { result ≡ number_at head.now 4 2 }
{
    short(head, 4)
}

pub fn time_in(head: &[u8; HEAD]) -> u32
    ensures { result ≡ number_at head.now 4 4 }
{
    word(head, 4)
}

// The first n of a buffer; none where there are fewer.
pub fn part<T>(buf: &[T], n: usize) -> &[T]
    ensures { result.now ≡ (if nat_le n (length buf.now) then take n buf.now else []) }
{
    buf.get(..n).unwrap_or(&[])
}

pub fn part_mut<T>(buf: &mut [T], n: usize) -> &mut [T]
    ensures { result.now ≡ (if nat_le n (length buf.old) then take n buf.old else []) }
{
    buf.get_mut(..n).unwrap_or(&mut [])
}

// Reads n bytes to the start of a buffer, whose size is fixed, as no memory is asked for: how many come, a head says. A buffer that is
// too short for them is an error too.
pub fn take<R: Read>(from: &mut R, buf: &mut [u8], n: usize) -> io::Result<()>
    ensures room { OnOk result (n ≤ length buf.new) }
    ensures bytes { OnOk result (Consumes (R.remaining from.old) (R.remaining from.new) (take n buf.new)) }
{
    if buf.len() < n {
        return Err(ErrorKind::InvalidInput.into());
    }
    from.read_exact(&mut buf[..n])
}

fn from_bytes(bytes: &[u8], words: &mut [u64])
    ensures { length words.old * word_size ≤ length bytes.now → word_bytes words.new ≡ take (length words.old * word_size) bytes.now }
{
    if words.len() <= bytes.len() / WORD {
        words_in(bytes, 0, words);
    }
}

fn to_bytes(words: &[u64], bytes: &mut [u8])
    ensures { length words.now * word_size ≤ length bytes.old → take (length words.now * word_size) bytes.new ≡ word_bytes words.now }
{
    if words.len() <= bytes.len() / WORD {
        words_out(words, bytes, 0);
    }
}

// The same of words; their bytes pass through a buffer.
pub fn take_words<R: Read>(
    from: &mut R,
    words: &mut [u64],
    n: usize,
    buf: &mut [u8],
) -> io::Result<()>
    ensures room { OnOk result (n ≤ length words.new) }
    ensures bytes { OnOk result (Consumes (R.remaining from.old) (R.remaining from.new) (word_bytes (take n words.new))) }
{
    if words.len() < n || buf.len() / WORD < n {
        return Err(ErrorKind::InvalidInput.into());
    }
    take(from, buf, WORD * n)?;
    from_bytes(buf, &mut words[..n]);
    Ok(())
}

// Writes words; their bytes pass through a buffer.
pub fn give_words<W: Write>(out: &mut W, words: &[u64], buf: &mut [u8]) -> io::Result<()>
    ensures { OnOk result (Appends (W.contents out.old) (W.contents out.new) (word_bytes words.now)) }
{
    let n = words.len();
    if buf.len() / WORD < n {
        return Err(ErrorKind::InvalidInput.into());
    }
    to_bytes(words, buf);
    out.write_all(&buf[..WORD * n])
}

// Numbers as they are written: no crate of the card's is known here, and so no reply.
pub fn give_reply<W: Write>(
    out: &mut W,
    status: u16,
    dword: u32,
    len: usize,
    told: u16,
    to: u16,
) -> io::Result<()>
    ensures { OnOk result (Appends (W.contents out.old) (W.contents out.new) (reply_bytes status told dword len to)) }
{
    let mut reply = [0u8; REPLY];
    octets::put(&mut reply, 0, 2, u64::from(status));
    octets::put(&mut reply, 2, 2, u64::from(told));
    octets::put(&mut reply, 4, 4, u64::from(dword));
    octets::put(&mut reply, 8, 4, len as u64);
    octets::put(&mut reply, 12, 2, u64::from(to));
    out.write_all(&reply)
}

// What has a status and nothing beside it.
pub fn give_status<W: Write>(out: &mut W, status: u16) -> io::Result<()>
    ensures { OnOk result (Appends (W.contents out.old) (W.contents out.new) (reply_bytes status 0 0 0 0)) }
{
    give_reply(out, status, 0, 0, 0, 0)
}
