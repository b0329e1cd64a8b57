// What a command does and answers, from its 64 bytes.
ghost use Rattle.std.specs.Prelude.{◌≡◌, true, false, List, ℕ, ◌≤◌, length, if◌then◌else◌};
ghost use Rattle.replies.specs.Answers.{reply_of, told_no, to_no};
ghost use Rattle.pages.specs.Features.{feature_size};
ghost use Rattle.desk.specs.Desk.{lifted};
ghost use Rattle.table.specs.Layout.{record_of};
ghost use Rattle.table.specs.Table.{row, desk_at, with_desk, DeskThere};
ghost use Rattle.commands.specs.declared.Kind.{Kind};
ghost use Rattle.commands.specs.Shapes.{kind_of, is_named, named_by, needs_in};
ghost use Rattle.steps.specs.Items.{Item, Nobody, The};
ghost use Rattle.steps.specs.Commanded.{named, viewed};
ghost use Rattle.steps.specs.Meanings.{meaning};
ghost use Rattle.steps.specs.Words.{Answered, Handed};
ghost use Rattle.by_value.specs.OnSet.{after_on, OnSet};
ghost use Rattle.card.specs.InPlace.{LegalAt, Stores};

use crate::views::{aggregate_of, set_list_onto};
use by_value::commanded::{
    after_clearing, after_config, after_window, hand_by, notices_no, status_on,
};
use by_value::entry::refusal_of;
use commands::asked::{Asked, ask};
use commands::shapes::{named_by, needs_out};
use commands::status_table::{request_status, unknown_refusal, view_status};
use commands::{Command, Kind, asked_by, command_in, identifier_of, offset_of, retains, turns_on};
use octets::cells::Cell;
use pages::identify::IDENTIFY_SIZE;
use record::event::newly_listed;
use record::{Record, SetId, Slot};
use replies::numbers::SUCCESS;
use replies::{Refusal, Reply, awaiting, beside, done, give, reply_of};
use table::{enter, legal, lift, load, on_at, queue, settle, store, store_moved, turn, waiting_at};

// Each of these answers whether the set was listed by it.

// A read of page 0Ah: with Retain nothing is stored.
fn read_at<C: Cell>(table: &mut [C], slot: Slot, c: Command, r: Record) -> bool
    requires there { LegalAt (C.words table.old) slot.0 }
    requires own { r ≡ record_of (row (C.words table.old) slot.0) }
    ensures stored { (given : List ℕ) → Stores (C.words table.old) slot.0 (after_on Kind.ReadLatency c given r) (C.words table.new) result }
    ensures rest { C.rest table.new ≡ C.rest table.old }
{
    if retains(c) {
        return false;
    }
    store_moved(table, slot, after_clearing(r), true);
    false
}

fn config_at<C: Cell>(table: &mut [C], slot: Slot, c: Command, given: &[u8], r: Record) -> bool
    requires there { LegalAt (C.words table.old) slot.0 }
    requires own { r ≡ record_of (row (C.words table.old) slot.0) }
    requires given { feature_size ≤ length given.now }
    ensures stored { Stores (C.words table.old) slot.0 (after_on Kind.SetConfig c given.now r) (C.words table.new) result }
    ensures rest { C.rest table.new ≡ C.rest table.old }
{
    let x = after_config(r, c, given);
    store(table, slot, x);
    newly_listed(r, x)
}

fn window_at<C: Cell>(table: &mut [C], slot: Slot, c: Command, r: Record) -> bool
    requires there { LegalAt (C.words table.old) slot.0 }
    requires own { r ≡ record_of (row (C.words table.old) slot.0) }
    ensures stored { (given : List ℕ) → Stores (C.words table.old) slot.0 (after_on Kind.SetWindow c given r) (C.words table.new) result }
    ensures rest { C.rest table.new ≡ C.rest table.old }
{
    let x = after_window(r, c);
    store_moved(table, slot, x, true);
    newly_listed(r, x)
}

// The record of a slot after a command that is carried out. Each kind stores by itself, and only what it can change: a match, and no
// closure for each kind, since they differ in what they are handed.
fn change<C: Cell>(
    table: &mut [C],
    slot: Slot,
    k: Kind,
    c: Command,
    given: &[u8],
    r: Record,
) -> bool
    requires there { LegalAt (C.words table.old) slot.0 }
    requires own { r ≡ record_of (row (C.words table.old) slot.0) }
    requires given { needs_in k ≤ length given.now }
    ensures stored { Stores (C.words table.old) slot.0 (after_on k c given.now r) (C.words table.new) result }
    ensures rest { C.rest table.new ≡ C.rest table.old }
{
    match k {
        Kind::SetConfig => config_at(table, slot, c, given, r),
        Kind::SetWindow => window_at(table, slot, c, r),
        Kind::ReadLatency => read_at(table, slot, c, r),
        _ => false,
    }
}

// An item that is refused is an Err until all is done; `reply_of` makes its reply.

// A command that names a set, which was found.
fn answer_set<C: Cell>(
    table: &mut [C],
    slot: Slot,
    asked: Asked,
    given: &[u8],
    answer: &mut [u8],
) -> Result<Reply, Refusal>
    requires { (asked.kind ≡ kind_of asked.command) × (is_named asked.kind ≡ true) × LegalAt (C.words table.old) slot.0 × DeskThere (C.words table.old) }
    ensures on { OnSet (C.words table.old) slot.0 asked.kind asked.command given.now answer.old (reply_of result) (C.words table.new) answer.new }
    ensures rest { C.rest table.new ≡ C.rest table.old }
{
    let r = load(table, slot);
    status_on(asked, given.len(), answer.len(), r)?;
    let new = change(table, slot, asked.kind, asked.command, given, r);
    let reply = hand_by(asked.kind, asked.command, r, answer);
    Ok(beside(reply, settle(table, new)))
}

// A command that names a set.
fn answer_named<C: Cell>(
    table: &mut [C],
    id: SetId,
    asked: Asked,
    given: &[u8],
    answer: &mut [u8],
) -> Result<Reply, Refusal>
    requires { (asked.kind ≡ kind_of asked.command) × (is_named asked.kind ≡ true) × (id.0 ≡ named_by asked.kind asked.command) }
    ensures answered { (i : Item) → meaning i ≡ The (named_by asked.kind asked.command) (named asked.kind asked.command given.now (length answer.old)) → Answered (C.words table.old) i answer.old (reply_of result) (C.words table.new) answer.new }
    ensures rest { C.rest table.new ≡ C.rest table.old }
{
    match enter(table, id) {
        Err(absent) => Err(refusal_of(absent, unknown_refusal(asked))),
        Ok(slot) => answer_set(table, slot, asked, given, answer),
    }
}

// A command that names no set: where it can change the desk, `table` is lent to be changed.

fn lift_if<C: Cell>(table: &mut [C], lifts: bool)
    requires { DeskThere (C.words table.old) }
    ensures lifted { C.words table.new ≡ (if lifts then with_desk (C.words table.old) (lifted (desk_at (C.words table.old))) else C.words table.old) }
    ensures rest { C.rest table.new ≡ C.rest table.old }
{
    if lifts {
        lift(table);
    }
}

// Page 0Bh: with Retain 0 it lifts the mask and drops the flag. That sends no notice.
fn answer_aggregate<C: Cell>(
    table: &mut [C],
    asked: Asked,
    given: usize,
    answer: &mut [u8],
) -> Result<Reply, Refusal>
    requires { (asked.kind ≡ Kind.ReadAggregate) × (Kind.ReadAggregate ≡ kind_of asked.command) }
    ensures answered { (i : Item) → meaning i ≡ Nobody (viewed Kind.ReadAggregate asked.command given (length answer.old)) → Answered (C.words table.old) i answer.old (reply_of result) (C.words table.new) answer.new }
    ensures rest { C.rest table.new ≡ C.rest table.old }
{
    if !legal(table) {
        return Err(Refusal::BadTable);
    }
    view_status(asked, given, answer.len())?;
    let c = asked.command;
    let page = aggregate_of(table);
    let from = offset_of(c) as usize;
    let n = needs_out(Kind::ReadAggregate, c) as usize;
    let reply = replies::hand_out(SUCCESS, 0, &page, from, n, answer);
    lift_if(table, !retains(c));
    Ok(beside(reply, None))
}

// Identify 04h: the whole page, written straight into the answer.
fn answer_identify<C: Cell>(
    table: &[C],
    asked: Asked,
    given: usize,
    answer: &mut [u8],
) -> Result<Reply, Refusal>
    requires { (asked.kind ≡ Kind.Identify) × (Kind.Identify ≡ kind_of asked.command) }
    ensures { (i : Item) → meaning i ≡ Nobody (viewed Kind.Identify asked.command given (length answer.old)) → Answered (C.words table.now) i answer.old (reply_of result) (C.words table.now) answer.new }
{
    if !legal(table) {
        return Err(Refusal::BadTable);
    }
    view_status(asked, given, answer.len())?;
    set_list_onto(table, asked_by(asked.command), answer);
    Ok(give(0, IDENTIFY_SIZE))
}

// Asynchronous Event Request.
fn answer_request<C: Cell>(table: &mut [C], asked: Asked) -> Result<Reply, Refusal>
    requires { asked.kind ≡ Kind.EventRequest }
    ensures answered { (i : Item) (given : ℕ) (before : List ℕ) → meaning i ≡ Nobody (viewed Kind.EventRequest asked.command given (length before)) → Answered (C.words table.old) i before (reply_of result) (C.words table.new) before }
    ensures rest { C.rest table.new ≡ C.rest table.old }
{
    if !legal(table) {
        return Err(Refusal::BadTable);
    }
    request_status(asked, waiting_at(table))?;
    Ok(beside(awaiting(), queue(table, identifier_of(asked.command))))
}

// Set Features 0Bh.
fn answer_turn<C: Cell>(
    table: &mut [C],
    asked: Asked,
    given: usize,
    room: usize,
) -> Result<Reply, Refusal>
    requires { asked.kind ≡ Kind.SetNotices }
    ensures answered { (i : Item) (before : List ℕ) → length before ≡ room → meaning i ≡ Nobody (viewed Kind.SetNotices asked.command given room) → Answered (C.words table.old) i before (reply_of result) (C.words table.new) before }
    ensures rest { C.rest table.new ≡ C.rest table.old }
{
    if !legal(table) {
        return Err(Refusal::BadTable);
    }
    view_status(asked, given, room)?;
    Ok(beside(done(), turn(table, turns_on(asked.command))))
}

// Get Features 0Bh.
fn answer_notices<C: Cell>(
    table: &[C],
    asked: Asked,
    given: usize,
    room: usize,
) -> Result<Reply, Refusal>
    requires { asked.kind ≡ Kind.GetNotices }
    ensures { (i : Item) (before : List ℕ) → length before ≡ room → meaning i ≡ Nobody (viewed Kind.GetNotices asked.command given room) → Answered (C.words table.now) i before (reply_of result) (C.words table.now) before }
{
    if !legal(table) {
        return Err(Refusal::BadTable);
    }
    view_status(asked, given, room)?;
    Ok(give(notices_no(on_at(table)), 0))
}

// These kinds differ in what they are handed, some the whole answer and some its length alone, so they are arms of a match and no
// closures.
fn answer_view<C: Cell>(
    table: &mut [C],
    asked: Asked,
    given: usize,
    answer: &mut [u8],
) -> Result<Reply, Refusal>
    requires { (asked.kind ≡ kind_of asked.command) × (is_named asked.kind ≡ false) }
    ensures answered { (i : Item) → meaning i ≡ Nobody (viewed asked.kind asked.command given (length answer.old)) → Answered (C.words table.old) i answer.old (reply_of result) (C.words table.new) answer.new }
    ensures rest { C.rest table.new ≡ C.rest table.old }
{
    match asked.kind {
        Kind::SetNotices => answer_turn(table, asked, given, answer.len()),
        Kind::GetNotices => answer_notices(table, asked, given, answer.len()),
        Kind::ReadAggregate => answer_aggregate(table, asked, given, answer),
        Kind::EventRequest => answer_request(table, asked),
        Kind::Identify => answer_identify(table, asked, given, answer),
        // the others name a set
        _ => Ok(done()),
    }
}

fn carry_out<C: Cell>(
    table: &mut [C],
    bytes: &[u8],
    given: &[u8],
    answer: &mut [u8],
) -> Result<Reply, Refusal>
    ensures answered { Answered (C.words table.old) (Item.command bytes.now given.now (length answer.old)) answer.old (reply_of result) (C.words table.new) answer.new }
    ensures rest { C.rest table.new ≡ C.rest table.old }
{
    let asked = ask(command_in(bytes));
    match named_by(asked.kind, asked.command) {
        Some(id) => answer_named(table, id, asked, given, answer),
        None => answer_view(table, asked, given.len(), answer),
    }
}

// Any command: its 64 bytes, its data in, and the buffer for its answer.
pub fn command<C: Cell>(table: &mut [C], bytes: &[u8], given: &[u8], answer: &mut [u8]) -> Reply
    ensures answered { Answered (C.words table.old) (Item.command bytes.now given.now (length answer.old)) answer.old result (C.words table.new) answer.new }
    ensures rest { C.rest table.new ≡ C.rest table.old }
{
    reply_of(carry_out(table, bytes, given, answer))
}

// The same, handing back that part of the answer buffer which was written.
pub fn command_part<'a, C: Cell>(
    table: &mut [C],
    bytes: &[u8],
    given: &[u8],
    answer: &'a mut [u8],
) -> (Reply, &'a mut [u8])
    ensures len { result.0.len ≡ length result.1.now }
    ensures handed { Handed (C.words table.old) (Item.command bytes.now given.now (length answer.old)) (length answer.old) (C.words table.new) result.0.status result.0.dword (told_no result.0.notice) (to_no result.0.notice) result.1.now }
    ensures rest { C.rest table.new ≡ C.rest table.old }
{
    let reply = command(table, bytes, given, answer);
    let n = reply.len;
    (reply, &mut answer[0..n])
}
