// What a command answers: the first row of a status table that holds refuses it; else data goes out, in one way.
#![tactic(auto)]

pub mod numbers;

ghost use Rattle.std.specs.Prelude.{◌≡◌, ◌≤◌, ℕ, length};
ghost use Rattle.octets.specs.Octets.{padded};
ghost use Rattle.replies.specs.Numbers.{number};
ghost use Rattle.replies.specs.Status.{first_of, lines_of, status_by};
ghost use Rattle.replies.specs.Answers.{answered, replying, refusing, giving, done, awaiting, beside_of, reply_of, told_no, to_no, notice_of, notice_no, Replied};

use crate::numbers::{REQUEST_WAITS, SUCCESS};

// What may go beside an answer: nothing, or a notice, which completes the waiting request with this identifier.
pub type Notice = Option<u16>;

// Dword 0 of a notice: read log page 0Bh.
pub const NOTICE: u32 = 0x000B0402;

// The status stays a number: 0000h and 07C8h are none of a refusal, and every caller hands it on as one, to C, a printout or a stream.
#[derive(Clone, Copy)]
pub struct Reply {
    pub status: u16,
    pub dword: u32,
    pub len: usize,
    pub notice: Notice,
}

// Why an item is refused: each reason by its number.
#[derive(Clone, Copy, PartialEq, Eq, Debug)]
pub enum Refusal {
    InvalidOpcode = 0x0001,
    InvalidField = 0x0002,
    TooManyRequests = 0x0105,
    InvalidLogPage = 0x0109,
    NotSaveable = 0x010D,
    UnknownSet = 0x07C0,
    TooEarly = 0x07C1,
    TooShort = 0x07C2,
    BadTable = 0x07C3,
    BadSetUp = 0x07C4,
    TickTooLong = 0x07C5,
    BadCommandLength = 0x07C7,
}

// The refusal of the first row that holds, whatever a refusal is: any numbers will do.
pub fn first<R: Copy>(rows: &[(bool, R)]) -> Result<(), R>
    ensures { (number_of : R → ℕ) → status_by number_of result ≡ first_of (lines_of number_of rows.now) }
{
    for (holds, refusal) in rows {
        if *holds {
            return Err(*refusal);
        }
    }
    Ok(())
}

// A status, of a refusal or of a request that waits, and nothing else.
fn bare(status: u16) -> Reply
    ensures { result ≡ replying status 0 0 None }
{
    Reply {
        status,
        dword: 0,
        len: 0,
        notice: None,
    }
}

pub fn refuse(r: Refusal) -> Reply
    ensures { result ≡ refusing (number r) }
{
    bare(u16::from(r))
}

// What an item answers in all: a refusal is its number, and nothing else.
pub fn reply_of(answered: Result<Reply, Refusal>) -> Reply
    ensures { result ≡ reply_of answered }
{
    answered.unwrap_or_else(refuse)
}

// Carried out, with dword 0 and so many bytes of data.
pub fn give(dword: u32, len: usize) -> Reply
    ensures { result ≡ giving dword len }
{
    Reply {
        status: SUCCESS,
        dword,
        len,
        notice: None,
    }
}

// Carried out, with nothing to say.
pub fn done() -> Reply
    ensures { result ≡ done }
{
    give(0, 0)
}

// A request that waits: carried out, with a number of its own.
pub fn awaiting() -> Reply
    ensures { result ≡ awaiting }
{
    bare(REQUEST_WAITS)
}

// The same reply, with this notice beside it.
pub fn beside(r: Reply, notice: Notice) -> Reply
    ensures { result ≡ beside_of r notice }
{
    Reply { notice, ..r }
}

// A notice as numbers, which C's reply needs: whether there is one, its request's identifier, and its dword 0.
pub fn told_no(notice: Notice) -> u16
    ensures { result ≡ told_no notice }
{
    u16::from(notice.is_some())
}

pub fn to_no(notice: Notice) -> u16
    ensures { result ≡ to_no notice }
{
    notice.unwrap_or(0)
}

// And back, for who has them from a reply to C.
pub fn notice_of(told: u16, to: u16) -> Notice
    ensures { result ≡ notice_of told to }
{
    if told == 0 { None } else { Some(to) }
}

pub fn notice_no(notice: Notice) -> u32
    ensures { result ≡ notice_no notice }
{
    notice.map_or(0, |_| NOTICE)
}

// A refusal, which writes nothing, or n bytes of a page from place `from`: the one way in which data goes out. Any number but 0 refuses,
// also one that is no `Refusal`'s.
pub fn hand_out(
    status: u16,
    dword: u32,
    page: &[u8],
    from: usize,
    n: usize,
    answer: &mut [u8],
) -> Reply
    requires { status ≡ 0 → (from ≤ length page.now) × (n ≤ length answer.old) }
    ensures { Replied (answered status dword (padded page.now from n)) answer.old result answer.new }
{
    if status != SUCCESS {
        return bare(status);
    }
    octets::copy_part(page, from, n, answer);
    give(dword, n)
}
