// The items of a tape, and what stands next on it.
ghost use Rattle.std.specs.Prelude.{◌≡◌, ◌&&◌, [], ◌<◌, ◌≤◌, length, IfSome, IsNone};
ghost use Rattle.std.proofs.Math.Option.{some};
ghost use Rattle.octets.specs.Numbers.{number_at};
ghost use Rattle.steps.specs.Items.{Item, item_of};
ghost use Rattle.tape.specs.Tape.{item_size, answer_size, item_by, item_in, Played, next_body, next_set, next_item};
ghost use Rattle.tape.specs.Kinds.{kind_number};

use crate::Next;
use crate::lines::{item_line, notice_line};
use crate::text::Line;
use card::commanded::command_part;
use card::media::{event, ticks};
use octets::numbers::{short, word};
use pages::bodies::BODY;
use record::SetId;
use rules::Media;

const ATTRIBUTES_KIND: u8 = 7;

const COMMAND_SIZE: usize = 64;

const DATA_SIZE: usize = 512;

const ANSWER_SIZE: usize = 4096;

// A kind of item.
#[derive(Clone, Copy, PartialEq, Eq)]
pub(crate) enum Kind {
    Command,
    CommandWithData,
    Reads,
    Writes,
    Excursion,
    Tick,
}

impl Kind {
    // The kind with a number; none where it is no item's, which is no error here, so no TryFrom.
    pub(crate) fn of(number: u8) -> Option<Kind>
        ensures some { IfSome result (λ kind. kind_number kind ≡ number) }
        ensures none { IsNone result → item_size number ≡ 0 }
    {
        match number {
            1 => Some(Kind::Command),
            2 => Some(Kind::CommandWithData),
            3 => Some(Kind::Reads),
            4 => Some(Kind::Writes),
            5 => Some(Kind::Excursion),
            6 => Some(Kind::Tick),
            _ => None,
        }
    }

    // How long an item's body is.
    pub(crate) fn size(self) -> usize
        ensures { (result ≡ item_size (kind_number self)) × (0 < result) }
    {
        match self {
            Kind::Command => COMMAND_SIZE,
            Kind::CommandWithData => COMMAND_SIZE + DATA_SIZE,
            Kind::Reads | Kind::Writes | Kind::Tick => 4,
            Kind::Excursion => 2,
        }
    }
}

// How long the body of a kind with a number is; none where it is no item's.
pub fn item_size(number: u8) -> Option<usize>
    ensures some { IfSome result (λ size. (size ≡ item_size number) × (0 < size)) }
    ensures none { IsNone result → item_size number ≡ 0 }
{
    Some(Kind::of(number)?.size())
}

// A media event of a set.
fn play_event(table: &mut [u64], line: &mut Line, set: u16, m: Media)
    ensures { Played table.old (some (item_of set m)) table.new line.new }
{
    let r = event(table, SetId(set), m);
    item_line(line, r.status, r.dword, b"");
    notice_line(line, r.notice);
}

fn play_tick(table: &mut [u64], line: &mut Line, t: u32)
    ensures { Played table.old (some (Item.tick t answer_size)) table.new line.new }
{
    let mut answer = [0u8; ANSWER_SIZE];
    let r = ticks(table, t, &mut answer);
    item_line(line, r.status, r.dword, &answer[..r.len]);
    notice_line(line, r.notice);
}

fn play_command(table: &mut [u64], line: &mut Line, bytes: &[u8], given: &[u8])
    ensures { Played table.old (some (Item.command bytes.now given.now answer_size)) table.new line.new }
{
    let mut answer = [0u8; ANSWER_SIZE];
    let (r, part) = command_part(table, bytes, given, &mut answer);
    item_line(line, r.status, r.dword, part);
    notice_line(line, r.notice);
}

// The arms differ in what they are handed, so they are no closures.
fn play_item(table: &mut [u64], line: &mut Line, kind: Kind, body: &[u8])
    requires { length body.now ≡ item_size (kind_number kind) }
    ensures { Played table.old (some (item_by (kind_number kind) body.now)) table.new line.new }
{
    match kind {
        Kind::Command => play_command(table, line, body, b""),
        Kind::CommandWithData => {
            play_command(table, line, &body[..COMMAND_SIZE], &body[COMMAND_SIZE..]);
        }
        Kind::Reads => play_event(table, line, short(body, 0), Media::Reads(short(body, 2))),
        Kind::Writes => play_event(table, line, short(body, 0), Media::Writes(short(body, 2))),
        Kind::Excursion => play_event(table, line, short(body, 0), Media::Excursion),
        Kind::Tick => play_tick(table, line, word(body, 0)),
    }
}

// The item of a kind, by its byte on the tape, and a body: what it does to the table, and its line. Where they are no item, nothing is
// done and the line is empty.
pub fn play(table: &mut [u64], line: &mut Line, kind: u8, body: &[u8])
    ensures { Played table.old (item_in kind body.now) table.new line.new }
{
    match Kind::of(kind) {
        Some(kind) if body.len() == kind.size() => play_item(table, line, kind, body),
        _ => line.clear(),
    }
}

fn next_body(size: usize, have: usize, last: bool) -> Next
    ensures { result ≡ next_body size have last }
{
    if size <= have {
        Next::Whole
    } else if last {
        Next::Bad
    } else {
        Next::Short
    }
}

fn next_none(last: bool) -> Next
    ensures { result ≡ next_item [] last }
{
    if last { Next::Over } else { Next::Short }
}

// Whether a set's attributes stand next.
pub fn next_set(left: &[u8], last: bool) -> Next
    ensures { result ≡ next_set left.now last }
{
    if left.is_empty() {
        return next_none(last);
    }
    if left[0] == ATTRIBUTES_KIND {
        next_body(BODY, left.len() - 1, last)
    } else {
        Next::Over
    }
}

// Whether an item stands next.
pub fn next_item(left: &[u8], last: bool) -> Next
    ensures { result ≡ next_item left.now last }
{
    if left.is_empty() {
        return next_none(last);
    }
    match item_size(left[0]) {
        Some(size) => next_body(size, left.len() - 1, last),
        None => Next::Bad,
    }
}
