// The record of a new set, and what set-up refuses.
ghost use Rattle.std.specs.Prelude.{◌≡◌, map, ◌+◌, ◌*◌, ◌≤◌, length};
ghost use Rattle.replies.specs.Status.{status_no};
ghost use Rattle.table.specs.Table.{legal_sets};
ghost use Rattle.pages.specs.Bodies.{body_size, attributes_in};
ghost use Rattle.steps.specs.SetUp.{new_state, new_record, attributes_from, set_up_status};
ghost use Rattle.by_value.specs.SetUp.{follows_of};

use pages::bodies::{BODY, body_id, body_legal};
use record::parts::{config_of, state_of};
use record::{Attributes, Events, Notes, Record, Recovery, Spent, State, Window};
use replies::Refusal;
use table::MAX_SETS;
use table::layout::{HEADER, ROW};

fn new_state() -> State
    ensures { result ≡ new_state }
{
    let config = config_of(Events::NONE, 0, 0, 0);
    state_of(Window::Off, config, Spent::NONE, Recovery::NONE)
}

pub fn new_record(a: Attributes) -> Record
    ensures { result ≡ new_record a }
{
    Record {
        attributes: a,
        state: new_state(),
        notes: Notes {
            events: Events::NONE,
            listed: false,
        },
    }
}

// Whether a body's attributes are in range and its identifier is above the one before.
fn follows(before: u64, bytes: &[u8], at: usize) -> bool
    requires { at + body_size ≤ length bytes.now }
    ensures { result ≡ follows_of before (attributes_in bytes.now at) }
{
    body_legal(bytes, at) & (before < body_id(bytes, at))
}

fn bodies_legal(bytes: &[u8], n: usize) -> bool
    requires { n * body_size ≤ length bytes.now }
    ensures { result ≡ legal_sets 0 (map new_record (attributes_from bytes.now 0 n)) }
{
    let mut before = 0;
    for i in 0..n {
        let at = i * BODY;
        if !follows(before, bytes, at) {
            return false;
        }
        before = body_id(bytes, at);
    }
    true
}

pub fn refusal(bytes: &[u8], words: usize) -> Result<(), Refusal>
    ensures { status_no result ≡ set_up_status bytes.now words }
{
    let n = bytes.len() / BODY;
    let legal = bodies_legal(bytes, n);
    replies::first(&[
        (!((1 <= n) & (n <= MAX_SETS)), Refusal::BadSetUp),
        (!(bytes.len() % BODY == 0), Refusal::BadSetUp),
        (!legal, Refusal::BadSetUp),
        (words < HEADER + n * ROW, Refusal::TooShort),
    ])
}
