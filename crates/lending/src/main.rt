// Takes calls of the two functions over references from standard input, and writes what each answered and left (`streams` says
// how): set-up from a lent list of three sets or of 64, whose bodies are the data; and reads, writes and excursions of one lent
// record, whose row is the table. It has no case of its own: rust/ makes the calls, and holds what is written to the model. Set-up
// from another number of bodies is answered with FFFFh.
#![tactic(auto)]

use by_reference::callers::{charge_lent, set_up_full, set_up_three};
use pages::bodies::{BODY, attributes_in};
use record::Attributes;
use rules::Media;
use std::io;
use std::io::{Read, Write};
use streams::{
    HEAD, Kind, count_in, give_status, give_words, kind_in, part, part_mut, sizes_in, take,
    take_words,
};
use table::MAX_SETS;
use table::layout::{ROW, record_of, words_of};

const WORDS: usize = 2048;

const BYTES: usize = 16384;

// The bodies of as many sets as a card may have, and of three.
const DATA: usize = MAX_SETS * BODY;

const THREE: usize = 3 * BODY;

// A head of no known kind is an excursion's.
fn media_in(head: &[u8; HEAD]) -> Media {
    match kind_in(head) {
        Some(Kind::Reads) => Media::Reads(count_in(head)),
        Some(Kind::Writes) => Media::Writes(count_in(head)),
        _ => Media::Excursion,
    }
}

fn row_in(table: &[u64]) -> [u64; ROW] {
    let mut row = [0u64; ROW];
    if table.len() == ROW {
        row.copy_from_slice(table);
    }
    row
}

fn put_row(table: &mut [u64], row: &[u64; ROW]) {
    if table.len() == ROW {
        table.copy_from_slice(row);
    }
}

fn attributes_at(bodies: &[u8], i: usize) -> Attributes {
    if i < bodies.len() / BODY {
        return attributes_in(bodies, i * BODY);
    }
    attributes_in(&[0u8; BODY], 0)
}

fn list_in(bodies: &[u8]) -> [Attributes; MAX_SETS] {
    let mut list = [attributes_at(bodies, 0); MAX_SETS];
    for (i, a) in list.iter_mut().enumerate() {
        *a = attributes_at(bodies, i);
    }
    list
}

// ---- each answers the status as the number that is written

fn charge(table: &mut [u64], m: Media) -> u16 {
    let c = charge_lent(record_of(row_in(table)), m);
    let r = c.record;
    put_row(table, &words_of(r));
    c.status
}

fn set_up(table: &mut [u64], bodies: &[u8]) -> u16 {
    match bodies.len() {
        THREE => {
            let a = attributes_at(bodies, 0);
            let b = attributes_at(bodies, 1);
            let c = attributes_at(bodies, 2);
            set_up_three(table, a, b, c)
        }
        DATA => set_up_full(table, list_in(bodies)),
        _ => 0xFFFF,
    }
}

fn status_of(head: &[u8; HEAD], table: &mut [u64], bodies: &[u8]) -> u16 {
    if kind_in(head) == Some(Kind::SetUp) {
        set_up(table, bodies)
    } else {
        charge(table, media_in(head))
    }
}

// What cannot be written is lost: the rest is tried, and the next call read.
fn carry_out<W: Write>(
    out: &mut W,
    head: &[u8; HEAD],
    table: &mut [u64],
    bodies: &[u8],
    buf: &mut [u8],
) {
    let _ = give_status(out, status_of(head, table, bodies));
    let _ = give_words(out, table, buf);
}

// Room for what follows a head, and for the words' bytes on their way.
#[derive(Drop)]
struct Room {
    table: [u64; WORDS],
    data: [u8; DATA],
    bytes: [u8; BYTES],
}

// One call; an Err where it did not come whole. `calling` has one of this name for calls of other kinds.
fn one_call<R: Read, W: Write>(from: &mut R, out: &mut W, room: &mut Room) -> io::Result<()> {
    let mut head = [0u8; HEAD];
    let begun = from.read_exact(&mut head);
    let n = sizes_in(&head);
    // Both are tried, so that as much is read of a call that is cut or too long as of any other.
    let table = take_words(from, &mut room.table, n.table, &mut room.bytes);
    let data = take(from, &mut room.data, n.data);
    begun.and(table).and(data)?;
    carry_out(
        out,
        &head,
        part_mut(&mut room.table, n.table),
        part(&room.data, n.data),
        &mut room.bytes,
    );
    Ok(())
}

// A proved loop has to end, and nothing says that the input does: so it takes no more turns than a number that no run uses up. The
// end of the input is a read that fails, and nothing is said of it.
fn main(rt: HostRuntime) {
    let mut from = rt.reader();
    let mut out = io::writer(&rt);
    let mut room = Room {
        table: [0; WORDS],
        data: [0; DATA],
        bytes: [0; BYTES],
    };
    for _ in 0..u64::MAX {
        if one_call(&mut from, &mut out, &mut room).is_err() {
            return;
        }
    }
}
