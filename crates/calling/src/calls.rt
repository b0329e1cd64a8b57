// One call, and what it answered.
use card::commanded::{command, command_part};
use card::media::{excursion, reads, ticks, writes};
use card::set_up::set_up;
use record::SetId;
use replies::{Reply, to_no, told_no};
use std::io::Write;
use streams::{
    HEAD, Kind, count_in, give_reply, give_status, give_words, kind_in, set_in, time_in,
};

// What a call is lent.
#[derive(Drop)]
pub struct Lent<'a> {
    pub table: &'a mut [u64],
    pub command: &'a [u8],
    pub data: &'a [u8],
    pub answer: &'a mut [u8],
}

// A head of no known kind is a command's.
fn reply_of(head: &[u8; HEAD], lent: &mut Lent<'_>) -> Reply {
    let id = SetId(set_in(head));
    match kind_in(head) {
        Some(Kind::Reads) => reads(lent.table, id, count_in(head)),
        Some(Kind::Writes) => writes(lent.table, id, count_in(head)),
        Some(Kind::Excursion) => excursion(lent.table, id),
        Some(Kind::Tick) => ticks(lent.table, time_in(head), lent.answer),
        _ => command(lent.table, lent.command, lent.data, lent.answer),
    }
}

// What cannot be written is lost, here and below: the rest is tried, and the next call read.
fn give<W: Write>(out: &mut W, r: Reply) {
    let _ = give_reply(
        out,
        r.status,
        r.dword,
        r.len,
        told_no(r.notice),
        to_no(r.notice),
    );
}

fn answer_part<W: Write>(out: &mut W, lent: &mut Lent<'_>) {
    let (r, written) = command_part(lent.table, lent.command, lent.data, lent.answer);
    give(out, r);
    let _ = out.write_all(written);
}

fn answer_by<W: Write>(out: &mut W, head: &[u8; HEAD], lent: &mut Lent<'_>) {
    match kind_in(head) {
        Some(Kind::SetUp) => {
            let _ = give_status(out, set_up(lent.table, lent.data));
        }
        Some(Kind::CommandPart) => answer_part(out, lent),
        _ => give(out, reply_of(head, lent)),
    }
}

// The words' bytes pass through a buffer.
pub fn carry_out<W: Write>(out: &mut W, head: &[u8; HEAD], lent: &mut Lent<'_>, buf: &mut [u8]) {
    answer_by(out, head, lent);
    let _ = give_words(out, lent.table, buf);
    let _ = out.write_all(lent.answer);
}
