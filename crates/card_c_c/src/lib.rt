// The six functions of include/card.h, exported for C: each slice is a pointer and a length. Each calls the function of `card_c` of its
// name, and promises the same.
#![tactic(auto)]

ghost use Rattle.std.specs.Prelude.{[], length};
ghost use Rattle.steps.specs.Items.{Item};
ghost use Rattle.card_c.specs.Entries.{SetUpAtC, AnsweredAtC};

#[unsafe(no_mangle)]
pub extern "C" fn card_set_up(table: &mut [u8], bodies: &[u8]) -> u16
    ensures { SetUpAtC bodies.now table.old table.new result }
{
    card_c::card_set_up(table, bodies)
}

#[unsafe(no_mangle)]
pub extern "C" fn card_command(
    table: &mut [u8],
    command: &[u8],
    given: &[u8],
    answer: &mut [u8],
    reply: &mut [u8],
) -> u16
    ensures { AnsweredAtC table.old (Item.command command.now given.now (length answer.old)) answer.old reply.old result table.new answer.new reply.new }
{
    card_c::card_command(table, command, given, answer, reply)
}

#[unsafe(no_mangle)]
pub extern "C" fn card_reads(table: &mut [u8], set: u16, count: u16, reply: &mut [u8]) -> u16
    ensures { AnsweredAtC table.old (Item.reads set count) [] reply.old result table.new [] reply.new }
{
    card_c::card_reads(table, set, count, reply)
}

#[unsafe(no_mangle)]
pub extern "C" fn card_writes(table: &mut [u8], set: u16, count: u16, reply: &mut [u8]) -> u16
    ensures { AnsweredAtC table.old (Item.writes set count) [] reply.old result table.new [] reply.new }
{
    card_c::card_writes(table, set, count, reply)
}

#[unsafe(no_mangle)]
pub extern "C" fn card_excursion(table: &mut [u8], set: u16, reply: &mut [u8]) -> u16
    ensures { AnsweredAtC table.old (Item.excursion set) [] reply.old result table.new [] reply.new }
{
    card_c::card_excursion(table, set, reply)
}

#[unsafe(no_mangle)]
pub extern "C" fn card_tick(
    table: &mut [u8],
    milliseconds: u32,
    answer: &mut [u8],
    reply: &mut [u8],
) -> u16
    ensures { AnsweredAtC table.old (Item.tick milliseconds (length answer.old)) answer.old reply.old result table.new answer.new reply.new }
{
    card_c::card_tick(table, milliseconds, answer, reply)
}
