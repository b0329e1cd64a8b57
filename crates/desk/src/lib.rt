// What the whole card keeps beside its sets, as the words that hold it: notices on, masked, the flag, how many requests wait, and
// their identifiers, the oldest first. Nothing here knows of sets.
#![tactic(auto)]

ghost use Rattle.std.specs.Prelude.{◌≡◌, false, ◌<◌, eqb, get_or};
ghost use Rattle.desk.specs.Desk.{requests_maximum};
ghost use Rattle.desk.specs.Words.{servable, desk_legal};
ghost use Rattle.desk.specs.AtWords.{places_legal, sends, served, remembered, settled_words, queued_words, turned_words, lifted_words};

use replies::Notice;

// How many words a desk takes, and how many requests may wait.
pub const DESK: usize = 8;

pub const REQUESTS: u64 = 4;

// Which word is which; where the first identifier stands, those of the later requests follow. The words are the header's, which lies in
// memory of a fixed size: so the identifiers stand beside a count, and a desk is its words and no struct that they would be turned into.
const ON: usize = 0;

const MASKED: usize = 1;

const FLAG: usize = 2;

const COUNT: usize = 3;

const FIRST: usize = 4;

// The largest identifier.
const IDENTIFIER: u64 = 0xFFFF;

// A desk's words after an item, and the notice that goes beside its answer.
#[derive(Clone, Copy)]
pub struct Settled {
    pub words: [u64; DESK],
    pub notice: Notice,
}

// The places for identifiers, by how many requests wait: so many have one, and the others are zero.
fn places_legal(a: [u64; DESK]) -> bool
    ensures { result ≡ places_legal a }
{
    let [_, _, _, count, p, q, r, s] = a;
    match count {
        0 => (p == 0) & (q == 0) & (r == 0) & (s == 0),
        1 => (p <= IDENTIFIER) & (q == 0) & (r == 0) & (s == 0),
        2 => (p <= IDENTIFIER) & (q <= IDENTIFIER) & (r == 0) & (s == 0),
        3 => (p <= IDENTIFIER) & (q <= IDENTIFIER) & (r <= IDENTIFIER) & (s == 0),
        REQUESTS => (p <= IDENTIFIER) & (q <= IDENTIFIER) & (r <= IDENTIFIER) & (s <= IDENTIFIER),
        _ => false,
    }
}

// A flag that could be served at once.
fn servable(a: [u64; DESK]) -> bool
    ensures { result ≡ servable a }
{
    (a[FLAG] == 1) & (a[ON] == 1) & (a[MASKED] == 0) & (0 < a[COUNT])
}

// Asked of every table, so by branches that a card takes again and again.
pub fn legal(a: [u64; DESK]) -> bool
    ensures { result ≡ desk_legal a }
{
    (a[ON] <= 1) & (a[MASKED] <= 1) & (a[FLAG] <= 1) && !servable(a) && places_legal(a)
}

// ---- what commands do

// A request that arrives comes last.
fn queue(a: [u64; DESK], id: u16) -> [u64; DESK]
    requires { get_or a 3 0 < requests_maximum }
    ensures { result ≡ queued_words id a }
{
    let mut b = a;
    b[FIRST + a[COUNT] as usize] = u64::from(id);
    b[COUNT] += 1;
    b
}

fn turn(a: [u64; DESK], on: bool) -> [u64; DESK]
    ensures { result ≡ turned_words on a }
{
    let mut b = a;
    b[ON] = u64::from(on);
    b
}

// A read of page 0Bh with Retain 0: no mask, and no flag.
pub fn lift(a: [u64; DESK]) -> [u64; DESK]
    ensures { result ≡ lifted_words a }
{
    let mut b = a;
    b[MASKED] = 0;
    b[FLAG] = 0;
    b
}

// How many requests wait.
pub fn waiting(a: [u64; DESK]) -> u64
    ensures { result ≡ get_or a 3 0 }
{
    a[COUNT]
}

pub fn is_on(a: [u64; DESK]) -> bool
    ensures { result ≡ eqb (get_or a 0 0) 1 }
{
    a[ON] == 1
}

// ---- notices

// Whether a notice goes out: there is something to tell, notices are on, none is masked, and a request waits.
fn sends(a: [u64; DESK], new: bool) -> bool
    ensures { result ≡ sends new a }
{
    ((a[FLAG] == 1) | new) & (a[ON] == 1) & (a[MASKED] == 0) & (0 < a[COUNT])
}

// The oldest request is completed: further notices are masked, and there is nothing more to tell.
fn served(a: [u64; DESK]) -> Settled
    requires { 0 < get_or a 3 0 }
    ensures { result ≡ served a }
{
    let [on, _, _, count, oldest, q, r, s] = a;
    Settled {
        words: [on, 1, 0, count - 1, q, r, s, 0],
        notice: Some((oldest & IDENTIFIER) as u16),
    }
}

// The flag remembers what is to be told.
fn remembered(a: [u64; DESK], new: bool) -> Settled
    ensures { result ≡ remembered new a }
{
    let mut words = a;
    words[FLAG] = u64::from((a[FLAG] == 1) | new);
    Settled {
        words,
        notice: None,
    }
}

// The end of an item that is carried out; `new`: it has listed a set that was not listed.
pub fn settle(a: [u64; DESK], new: bool) -> Settled
    ensures { result ≡ settled_words new a }
{
    if sends(a, new) {
        served(a)
    } else {
        remembered(a, new)
    }
}

// ---- a command's end: what it does to the desk by itself, and the notice that this makes possible

pub fn queue_and_settle(a: [u64; DESK], id: u16) -> Settled
    requires { get_or a 3 0 < requests_maximum }
    ensures { result ≡ settled_words false (queued_words id a) }
{
    settle(queue(a, id), false)
}

pub fn turn_and_settle(a: [u64; DESK], on: bool) -> Settled
    ensures { result ≡ settled_words false (turned_words on a) }
{
    settle(turn(a, on), false)
}
