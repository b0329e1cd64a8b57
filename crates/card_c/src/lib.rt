// The card for C: functions on numbers and byte slices. `card_c_c` exports them, each slice a pointer and a length, and include/card.h
// describes them. The table is a run of bytes, which `card` serves as it serves words.
#![tactic(auto)]

mod reply;

ghost use Rattle.std.specs.Prelude.{[], length};
ghost use Rattle.steps.specs.Items.{Item};
ghost use Rattle.card_c.specs.Entries.{SetUpAtC, AnsweredAtC};

use crate::reply::put_reply;
use card::media::{event, ticks};
use card::set_up::set_up;
use record::SetId;
use rules::Media;

pub fn card_set_up(table: &mut [u8], bodies: &[u8]) -> u16
    ensures { SetUpAtC bodies.now table.old table.new result }
{
    set_up(table, bodies)
}

pub fn card_command(
    table: &mut [u8],
    command: &[u8],
    given: &[u8],
    answer: &mut [u8],
    reply: &mut [u8],
) -> u16
    ensures { AnsweredAtC table.old (Item.command command.now given.now (length answer.old)) answer.old reply.old result table.new answer.new reply.new }
{
    let r = card::commanded::command(table, command, given, answer);
    put_reply(reply, r);
    r.status
}

pub fn card_reads(table: &mut [u8], set: u16, count: u16, reply: &mut [u8]) -> u16
    ensures { AnsweredAtC table.old (Item.reads set count) [] reply.old result table.new [] reply.new }
{
    let r = event(table, SetId(set), Media::Reads(count));
    put_reply(reply, r);
    r.status
}

pub fn card_writes(table: &mut [u8], set: u16, count: u16, reply: &mut [u8]) -> u16
    ensures { AnsweredAtC table.old (Item.writes set count) [] reply.old result table.new [] reply.new }
{
    let r = event(table, SetId(set), Media::Writes(count));
    put_reply(reply, r);
    r.status
}

pub fn card_excursion(table: &mut [u8], set: u16, reply: &mut [u8]) -> u16
    ensures { AnsweredAtC table.old (Item.excursion set) [] reply.old result table.new [] reply.new }
{
    let r = event(table, SetId(set), Media::Excursion);
    put_reply(reply, r);
    r.status
}

pub fn card_tick(table: &mut [u8], milliseconds: u32, answer: &mut [u8], reply: &mut [u8]) -> u16
    ensures { AnsweredAtC table.old (Item.tick milliseconds (length answer.old)) answer.old reply.old result table.new answer.new reply.new }
{
    let r = ticks(table, milliseconds, answer);
    put_reply(reply, r);
    r.status
}
