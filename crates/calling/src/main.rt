// Takes calls of the card's functions on words from standard input, and writes what each answered and left (`streams` says how).
// It has no case of its own: rust/ makes the calls, and holds what is written to the model. A call that is cut, or too long for
// the room below, ends the program.
#![tactic(auto)]

mod calls;

use calls::{Lent, carry_out};
use std::io;
use std::io::{Read, Write};
use streams::{HEAD, Sizes, part, part_mut, sizes_in, take, take_words};

// 200 bodies, and the words that so many sets would need: far more than a card has.
const WORDS: usize = 5120;

const BYTES: usize = 40960;

const ANSWER: usize = 8192;

const COMMAND: usize = 128;

const DATA: usize = 20480;

// Room for what follows a head, and for the words' bytes on their way.
#[derive(Drop)]
struct Room {
    table: [u64; WORDS],
    answer: [u8; ANSWER],
    command: [u8; COMMAND],
    data: [u8; DATA],
    bytes: [u8; BYTES],
}

impl Room {
    fn new() -> Room {
        Room {
            table: [0; WORDS],
            answer: [0; ANSWER],
            command: [0; COMMAND],
            data: [0; DATA],
            bytes: [0; BYTES],
        }
    }

    // Each part is tried, so that as much is read of a call that is cut or too long as of any other.
    fn take_all<R: Read>(&mut self, from: &mut R, n: Sizes) -> io::Result<()> {
        let table = take_words(from, &mut self.table, n.table, &mut self.bytes);
        let answer = take(from, &mut self.answer, n.answer);
        let command = take(from, &mut self.command, n.command);
        let data = take(from, &mut self.data, n.data);
        table.and(answer).and(command).and(data)
    }
}

// One call; an Err where it did not come whole. `lending` has one of this name for calls of other kinds.
fn one_call<R: Read, W: Write>(from: &mut R, out: &mut W, room: &mut Room) -> io::Result<()> {
    let mut head = [0u8; HEAD];
    let begun = from.read_exact(&mut head);
    let n = sizes_in(&head);
    let came = room.take_all(from, n);
    begun.and(came)?;
    let mut lent = Lent {
        table: part_mut(&mut room.table, n.table),
        command: part(&room.command, n.command),
        data: part(&room.data, n.data),
        answer: part_mut(&mut room.answer, n.answer),
    };
    carry_out(out, &head, &mut lent, &mut room.bytes);
    Ok(())
}

// A proved loop has to end, and nothing says that the input does: so it takes no more turns than a number that no run uses up. The
// end of the input is a read that fails, and nothing is said of it.
fn main(rt: HostRuntime) {
    let mut from = rt.reader();
    let mut out = io::writer(&rt);
    let mut room = Room::new();
    for _ in 0..u64::MAX {
        if one_call(&mut from, &mut out, &mut room).is_err() {
            return;
        }
    }
}
