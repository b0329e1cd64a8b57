// The card's table in a lent run of cells, words or their bytes: legality, the search for a set, one slot loaded and stored, and the
// listed marks as one word. What follows the table is neither read nor written.
#![tactic(auto)]

pub mod layout;
pub mod legal_words;

ghost use Rattle.std.specs.Prelude.{◌≡◌, true, false, ◌+◌, ◌*◌, ◌<◌, ◌≤◌, length, get_or};
ghost use Rattle.std.proofs.lemmas.List.Edits.{sets};
ghost use Rattle.table.specs.Layout.{words_of, record_of};
ghost use Rattle.record.specs.Parts.{id_of};
ghost use Rattle.desk.specs.Desk.{queued, turned, lifted, settle, requests_maximum};
ghost use Rattle.table.specs.Card.{header_words, desk_start};
ghost use Rattle.table.specs.Table.{desk_part, desk_at, with_desk, DeskThere, Tells, count, row_start, row, rows, put, extent_of, sized, legal_rows, legal_row, legal_table, Legal, Moved, records_of, find_in, enter_in, listed_word};

use crate::layout::{
    DESK_START, HEADER, LAYOUT, LISTED, NOTES, ROW, WINDOW, id_in, record_of, words_of,
};
use crate::legal_words::follows;
use desk::DESK;
use octets::cells::Cell;
use record::{Record, SetId, Slot};
use replies::Notice;

pub const MAX_SETS: usize = 64;

// Seven looks at identifiers are enough for MAX_SETS slots, since k looks tell of fewer than 2 ^ k. A search counts down from here
// at each look, and it is proved that the count does not fall below 0: so no search takes an eighth look.
pub const LOOKS: usize = 7;

// Why there is no slot for an identifier: the table is not legal, or it has no such set.
#[derive(Clone, Copy)]
pub enum Absent {
    BadTable,
    NoSet,
}

// The row of a slot.
fn fetch<C: Cell>(table: &[C], slot: Slot) -> [u64; ROW]
    requires { row_start (slot.0 + 1) ≤ length (C.words table.now) }
    ensures { result ≡ row (C.words table.now) slot.0 }
{
    let mut a = [0u64; ROW];
    C::read(table, HEADER + slot.0 * ROW, &mut a);
    a
}

pub fn load<C: Cell>(table: &[C], slot: Slot) -> Record
    requires { row_start (slot.0 + 1) ≤ length (C.words table.now) }
    ensures { result ≡ record_of (row (C.words table.now) slot.0) }
{
    record_of(fetch(table, slot))
}

pub fn store<C: Cell>(table: &mut [C], slot: Slot, r: Record)
    requires { row_start (slot.0 + 1) ≤ length (C.words table.old) }
    ensures words { C.words table.new ≡ put (C.words table.old) slot.0 (words_of r) }
    ensures rest { C.rest table.new ≡ C.rest table.old }
{
    C::write(table, HEADER + slot.0 * ROW, &words_of(r));
}

// The same where the row's attributes and configuration stay: they are not written again, nor are the notes where nothing was noted.
pub fn store_moved<C: Cell>(table: &mut [C], slot: Slot, r: Record, noted: bool)
    requires room { row_start (slot.0 + 1) ≤ length (C.words table.old) }
    requires legal { legal_row (row (C.words table.old) slot.0) ≡ true }
    requires moved { Moved noted (record_of (row (C.words table.old) slot.0)) r }
    ensures words { C.words table.new ≡ put (C.words table.old) slot.0 (words_of r) }
    ensures rest { C.rest table.new ≡ C.rest table.old }
{
    let a = words_of(r);
    let at = HEADER + slot.0 * ROW;
    C::write(table, at + WINDOW, &a[WINDOW..NOTES]);
    if noted {
        C::write(table, at + NOTES, &a[NOTES..ROW]);
    }
}

// The number of sets.
pub fn count_of<C: Cell>(table: &[C]) -> usize
    requires { header_words ≤ length (C.words table.now) }
    ensures { result ≡ count (C.words table.now) }
{
    C::word(table, 1) as usize
}

// How many words the table of n sets takes, where so much room has one of that number.
// The number is held against the maximum before it is multiplied, so that no number wraps. In two steps, and by no range's `contains`:
// with one step less before it the compiler moves the loop over rows of `legal` to another place, where C's calls take 2 to 3 ns more
// for each set (docs/FIGURES.md).
pub fn extent(n: usize, room: usize) -> Option<usize>
    ensures { result ≡ extent_of n room }
{
    if MAX_SETS < n {
        return None;
    }
    let end = HEADER + n * ROW;
    ((1 <= n) & (end <= room)).then_some(end)
}

// The desk's words.
pub fn desk_of<C: Cell>(table: &[C]) -> [u64; DESK]
    requires { header_words ≤ length (C.words table.now) }
    ensures { result ≡ desk_part (C.words table.now) }
{
    let mut a = [0u64; DESK];
    C::read(table, DESK_START, &mut a);
    a
}

fn put_desk<C: Cell>(table: &mut [C], a: [u64; DESK])
    requires { header_words ≤ length (C.words table.old) }
    ensures words { C.words table.new ≡ sets (C.words table.old) desk_start a }
    ensures rest { C.rest table.new ≡ C.rest table.old }
{
    C::write(table, DESK_START, &a);
}

// How many requests wait, and whether notices are on.
pub fn waiting_at<C: Cell>(table: &[C]) -> u64
    requires { DeskThere (C.words table.now) }
    ensures { result ≡ length (desk_at (C.words table.now)).waiting }
{
    desk::waiting(desk_of(table))
}

pub fn on_at<C: Cell>(table: &[C]) -> bool
    requires { DeskThere (C.words table.now) }
    ensures { result ≡ (desk_at (C.words table.now)).on }
{
    desk::is_on(desk_of(table))
}

// ---- the end of an item: what it does to the desk, and the notice that goes beside its answer

// `new`: it has listed a set that was not listed. Where it has not, a legal desk stays as it is.
pub fn settle<C: Cell>(table: &mut [C], new: bool) -> Notice
    requires { DeskThere (C.words table.old) }
    ensures desk { Tells (C.words table.old) (settle new (desk_at (C.words table.old))) (C.words table.new) result }
    ensures rest { C.rest table.new ≡ C.rest table.old }
{
    if new {
        let s = desk::settle(desk_of(table), true);
        put_desk(table, s.words);
        return s.notice;
    }
    None
}

// A request that arrives. It and feature 0Bh, below, differ in what they ask of the desk, and each says so in its own clause.
pub fn queue<C: Cell>(table: &mut [C], id: u16) -> Notice
    requires { DeskThere (C.words table.old) × (length (desk_at (C.words table.old)).waiting < requests_maximum) }
    ensures desk { Tells (C.words table.old) (settle false (queued id (desk_at (C.words table.old)))) (C.words table.new) result }
    ensures rest { C.rest table.new ≡ C.rest table.old }
{
    let s = desk::queue_and_settle(desk_of(table), id);
    put_desk(table, s.words);
    s.notice
}

// Feature 0Bh.
pub fn turn<C: Cell>(table: &mut [C], on: bool) -> Notice
    requires { DeskThere (C.words table.old) }
    ensures desk { Tells (C.words table.old) (settle false (turned on (desk_at (C.words table.old)))) (C.words table.new) result }
    ensures rest { C.rest table.new ≡ C.rest table.old }
{
    let s = desk::turn_and_settle(desk_of(table), on);
    put_desk(table, s.words);
    s.notice
}

// A read of page 0Bh with Retain 0.
pub fn lift<C: Cell>(table: &mut [C])
    requires { DeskThere (C.words table.old) }
    ensures desk { C.words table.new ≡ with_desk (C.words table.old) (lifted (desk_at (C.words table.old))) }
    ensures rest { C.rest table.new ≡ C.rest table.old }
{
    put_desk(table, desk::lift(desk_of(table)));
}

fn fits<C: Cell>(table: &[C]) -> bool
    ensures { result ≡ sized (C.words table.now) }
{
    let room = C::room(table);
    if room < HEADER {
        return false;
    }
    let known = C::word(table, 0) == LAYOUT;
    known & extent(count_of(table), room).is_some()
}

fn rows_legal<C: Cell>(table: &[C], n: usize) -> bool
    requires { (n ≡ count (C.words table.now)) × (row_start n ≤ length (C.words table.now)) }
    ensures { result ≡ legal_rows 0 (rows (C.words table.now)) }
{
    let mut before = 0;
    for i in 0..n {
        let a = fetch(table, Slot(i));
        if !follows(before, a) {
            return false;
        }
        before = id_in(a);
    }
    true
}

// Asked once of each item. No type says it of a table from then on: between the store of a row and what the item's end makes of the desk
// a table need not be legal.
pub fn legal<C: Cell>(table: &[C]) -> bool
    ensures { result ≡ legal_table (C.words table.now) }
{
    fits(table) && desk::legal(desk_of(table)) && rows_legal(table, count_of(table))
}

// The identifier's word of a slot.
fn id_at<C: Cell>(table: &[C], slot: usize) -> u64
    requires { row_start (slot + 1) ≤ length (C.words table.now) }
    ensures { result ≡ get_or (C.words table.now) (row_start slot) 0 }
{
    C::word(table, HEADER + slot * ROW)
}

// The identifier of the set in a slot.
pub fn id_of<C: Cell>(table: &[C], slot: Slot) -> SetId
    requires { row_start (slot.0 + 1) ≤ length (C.words table.now) }
    ensures { result.0 ≡ id_of (record_of (row (C.words table.now) slot.0)) }
{
    SetId((id_at(table, slot.0) % 65536) as u16)
}

// 02: "Make the search quicker using the rising order." Identifiers rise, from 1 or above, so that slot k has one above k: a set s
// lies in slot s - 1 or before it, and in s - 1 itself where no identifier below s is left out. If there is such a slot, the first
// look is there. After that so many slots are `left`, from `from` on, that may hold the set. Each look is at the middle one, since
// what it finds tells of a half of them.
// It is written out since the library's binary search does not promise how many looks it takes, which LOOKS and the must-fail edits
// one_look_fewer, first_miss_taken_as_none and walk_from_slot_to_slot hold.
pub fn find<C: Cell>(table: &[C], id: SetId) -> Option<Slot>
    requires { Legal (C.words table.now) }
    ensures { result ≡ find_in (C.words table.now) id.0 }
{
    // no set has it
    if id.0 == 0 {
        return None;
    }
    let identifier = usize::from(id.0);
    let want = u64::from(id.0);
    let sets = count_of(table);
    let mut looks = LOOKS;
    let mut left = sets;
    if identifier <= sets {
        let slot = identifier - 1;
        looks -= 1;
        if id_at(table, slot) == want {
            return Some(Slot(slot));
        }
        left = slot;
    }
    let mut from = 0;
    while 0 < left {
        let half = left / 2;
        let slot = from + half;
        looks -= 1;
        let here = id_at(table, slot);
        if here == want {
            return Some(Slot(slot));
        }
        if here < want {
            from = slot + 1;
            left = left - half - 1;
        } else {
            left = half;
        }
    }
    None
}

// The way into every item that names a set.
pub fn enter<C: Cell>(table: &[C], id: SetId) -> Result<Slot, Absent>
    ensures { result ≡ enter_in (C.words table.now) id.0 }
{
    if legal(table) {
        find(table, id).ok_or(Absent::NoSet)
    } else {
        Err(Absent::BadTable)
    }
}

// The listed marks, gathered from the last slot to the first: the first set's is the lowest bit.
pub fn listed_word<C: Cell>(table: &[C]) -> u64
    requires { Legal (C.words table.now) }
    ensures { result ≡ listed_word (records_of (C.words table.now)) }
{
    let mut word: u64 = 0;
    for i in (0..count_of(table)).rev() {
        word = word * 2 + C::word(table, HEADER + i * ROW + LISTED);
    }
    word
}
