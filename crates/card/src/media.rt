// Media events and ticks, each on the rows that it changes, where they lie.
ghost use Rattle.std.specs.Prelude.{◌≡◌, [], map, length};
ghost use Rattle.record.specs.declared.Effect.{Effect};
ghost use Rattle.record.specs.Event.{settled};
ghost use Rattle.rules.specs.Rules.{media_rule};
ghost use Rattle.table.specs.Layout.{record_of};
ghost use Rattle.table.specs.Table.{count, row, Legal, records_of, written_rows, newly};
ghost use Rattle.steps.specs.Items.{Item, item_of};
ghost use Rattle.by_value.specs.Ticks.{tick_one};
ghost use Rattle.steps.specs.Words.{Answered};
ghost use Rattle.card.specs.InPlace.{LegalAt, Stores, ruled_at, Ruled};

use by_value::entry::refusal_of;
use octets::cells::Cell;
use record::event::{newly_listed, settle};
use record::legal::DAY_MS;
use record::{Attributes, Effect, Record, SetId, Slot, State};
use replies::{Refusal, Reply, beside, done, refuse};
use rules::{Media, excursion_event, read_event, tick_event, write_event};
use table::{enter, legal, load, store_moved};

// The record of a slot after an effect that leaves its configuration; the answer is whether its set was listed by it. Most effects note
// nothing, and leave the notes' words alone.
fn store_effect<C: Cell>(table: &mut [C], slot: Slot, r: Record, e: Effect) -> bool
    requires there { LegalAt (C.words table.old) slot.0 }
    requires own { r ≡ record_of (row (C.words table.old) slot.0) }
    requires stays { e.state.config ≡ r.state.config }
    ensures stored { Stores (C.words table.old) slot.0 (settled r e) (C.words table.new) result }
    ensures rest { C.rest table.new ≡ C.rest table.old }
{
    let x = settle(r, e);
    store_moved(table, slot, x, !e.is_silent());
    newly_listed(r, x)
}

// A slot's record after a rule. Each rule gets a copy of this that loads and stores by itself: a record that is made in one place and
// stored in another is copied on the way.
fn rule_at<C: Cell, F: FnOnce(Attributes, State) -> Effect>(
    table: &mut [C],
    slot: Slot,
    rule: F,
) -> bool
    requires there { LegalAt (C.words table.old) slot.0 }
    requires any { F.IsAlwaysCallable rule }
    requires stays { (a : _) (s : _) (e : _) → F.post rule a s e → e.state.config ≡ s.config }
    ensures stored { Ruled (F.post rule) (C.words table.old) slot.0 (C.words table.new) result }
    ensures rest { C.rest table.new ≡ C.rest table.old }
{
    let r = load(table, slot);
    let a = r.attributes;
    let s = r.state;
    store_effect(table, slot, r, rule(a, s))
}

fn event_at<C: Cell>(table: &mut [C], slot: Slot, m: Media) -> bool
    requires { LegalAt (C.words table.old) slot.0 }
    ensures stored { Stores (C.words table.old) slot.0 (ruled_at (media_rule m) (C.words table.old) slot.0) (C.words table.new) result }
    ensures rest { C.rest table.new ≡ C.rest table.old }
{
    match m {
        Media::Reads(k) => rule_at(table, slot, |a, s| read_event(a, s, k)),
        Media::Writes(k) => rule_at(table, slot, |a, s| write_event(a, s, k)),
        Media::Excursion => rule_at(table, slot, |a, s| excursion_event(a, s)),
    }
}

pub fn event<C: Cell>(table: &mut [C], id: SetId, m: Media) -> Reply
    ensures answered { Answered (C.words table.old) (item_of id.0 m) [] result (C.words table.new) [] }
    ensures rest { C.rest table.new ≡ C.rest table.old }
{
    match enter(table, id) {
        Err(absent) => refuse(refusal_of(absent, Refusal::UnknownSet)),
        Ok(slot) => {
            let new = event_at(table, slot, m);
            beside(done(), table::settle(table, new))
        }
    }
}

pub fn reads<C: Cell>(table: &mut [C], id: SetId, k: u16) -> Reply
    ensures answered { Answered (C.words table.old) (Item.reads id.0 k) [] result (C.words table.new) [] }
    ensures rest { C.rest table.new ≡ C.rest table.old }
{
    event(table, id, Media::Reads(k))
}

pub fn writes<C: Cell>(table: &mut [C], id: SetId, k: u16) -> Reply
    ensures answered { Answered (C.words table.old) (Item.writes id.0 k) [] result (C.words table.new) [] }
    ensures rest { C.rest table.new ≡ C.rest table.old }
{
    event(table, id, Media::Writes(k))
}

pub fn excursion<C: Cell>(table: &mut [C], id: SetId) -> Reply
    ensures answered { Answered (C.words table.old) (Item.excursion id.0) [] result (C.words table.new) [] }
    ensures rest { C.rest table.new ≡ C.rest table.old }
{
    event(table, id, Media::Excursion)
}

fn tick_at<C: Cell>(table: &mut [C], slot: Slot, t: u32) -> bool
    requires { LegalAt (C.words table.old) slot.0 }
    ensures stored { Stores (C.words table.old) slot.0 (tick_one t (record_of (row (C.words table.old) slot.0))) (C.words table.new) result }
    ensures rest { C.rest table.new ≡ C.rest table.old }
{
    rule_at(table, slot, |a, s| tick_event(a, s, t))
}

// Every row after a tick; the answer is whether some set was listed by it.
fn tick_all<C: Cell>(table: &mut [C], n: usize, t: u32) -> bool
    requires { (n ≡ count (C.words table.old)) × Legal (C.words table.old) }
    ensures words { C.words table.new ≡ written_rows (C.words table.old) (map (tick_one t) (records_of (C.words table.old))) }
    ensures listed { result ≡ newly (records_of (C.words table.old)) (map (tick_one t) (records_of (C.words table.old))) }
    ensures rest { C.rest table.new ≡ C.rest table.old }
{
    let mut new = false;
    for i in 0..n {
        new = new | tick_at(table, Slot(i), t);
    }
    new
}

// Nothing is written to the answer buffer.
pub fn ticks<C: Cell>(table: &mut [C], t: u32, answer: &mut [u8]) -> Reply
    ensures answered { Answered (C.words table.old) (Item.tick t (length answer.old)) answer.old result (C.words table.new) answer.new }
    ensures rest { C.rest table.new ≡ C.rest table.old }
{
    if !legal(table) {
        return refuse(Refusal::BadTable);
    }
    if DAY_MS < t {
        return refuse(Refusal::TickTooLong);
    }
    let n = table::count_of(table);
    let new = tick_all(table, n, t);
    beside(done(), table::settle(table, new))
}
