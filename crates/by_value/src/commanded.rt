// A command on the record of the set that it names: what it does to it, and what it answers from it.
ghost use Rattle.std.specs.Prelude.{◌≡◌, true, List, ℕ, ◌≤◌, length, if◌then◌else◌};
ghost use Rattle.record.specs.Event.{settled};
ghost use Rattle.record.specs.Windows.{window_no};
ghost use Rattle.replies.specs.Status.{status_no};
ghost use Rattle.replies.specs.Answers.{Replied};
ghost use Rattle.rules.specs.Rules.{still, clearing_read, configure, selecting};
ghost use Rattle.pages.specs.Features.{feature_size, config_in};
ghost use Rattle.commands.specs.declared.Kind.{Kind};
ghost use Rattle.commands.specs.Commands.{enable, cause_by, window_cause, retain, offset};
ghost use Rattle.commands.specs.Shapes.{shape_of, is_named, needs_in, needs_out};
ghost use Rattle.steps.specs.Commanded.{notices_no, mode_no, answer_of};
ghost use Rattle.by_value.specs.OnSet.{status_on, after_on};

use commands::asked::Asked;
use commands::shapes::needs_out;
use commands::status_table::found_status;
use commands::{Command, Kind, enables, offset_of, retains, selects_d};
use pages::features::{FEATURE_SIZE, config_in, config_onto};
use pages::latency::{LATENCY_SIZE, latency_onto};
use record::event::settle;
use record::{Attributes, Effect, Record, State, Window};
use replies::numbers::SUCCESS;
use replies::{Refusal, Reply, done, give};
use rules::{Cause, clearing_read, go_to_selected, keep_still, set_mode};

// Bit 12 of feature 0Bh.
const NOTICES_BIT: u32 = 0x1000;

pub fn status_on(asked: Asked, given: usize, room: usize, r: Record) -> Result<(), Refusal>
    ensures { status_no result ≡ status_on asked.kind asked.command given room r }
{
    found_status(asked, given, room, r.state)
}

// ---- the record after each command that changes one

pub fn after_config(r: Record, c: Command, given: &[u8]) -> Record
    requires { feature_size ≤ length given.now }
    ensures { result ≡ settled r (configure (enable c) (config_in given.now) r.attributes r.state) }
{
    settle(
        r,
        set_mode(r.attributes, r.state, enables(c), config_in(given)),
    )
}

// That each cause stands in the code lets the compiler read the table's columns ahead.
fn select_by(a: Attributes, s: State, d: bool) -> Effect
    ensures { result ≡ selecting (cause_by d) a s }
{
    if d {
        go_to_selected(a, s, Cause::SelectD)
    } else {
        go_to_selected(a, s, Cause::SelectN)
    }
}

pub fn after_window(r: Record, c: Command) -> Record
    ensures { result ≡ settled r (selecting (window_cause c) r.attributes r.state) }
{
    settle(r, select_by(r.attributes, r.state, selects_d(c)))
}

// A read of page 0Ah with Retain 0.
pub fn after_clearing(r: Record) -> Record
    ensures { result ≡ settled r (clearing_read r.state) }
{
    settle(r, clearing_read(r.state))
}

fn after_read(r: Record, c: Command) -> Record
    ensures { result ≡ settled r (if retain c then still r.state else clearing_read r.state) }
{
    if retains(c) {
        settle(r, keep_still(r.state))
    } else {
        after_clearing(r)
    }
}

// The record after any command that is carried out, of who holds a record by itself: `card` stores only what a kind can change. A match,
// and no closure for each kind, since they differ in what they are handed: only Set Features 13h looks at the data in.
pub fn after_command(r: Record, k: Kind, c: Command, given: &[u8]) -> Record
    requires { needs_in k ≤ length given.now }
    ensures { result ≡ after_on k c given.now r }
{
    match k {
        Kind::SetConfig => after_config(r, c, given),
        Kind::SetWindow => after_window(r, c),
        Kind::ReadLatency => after_read(r, c),
        _ => settle(r, keep_still(r.state)),
    }
}

// ---- dword 0 and the page, from the record before it is changed

// As the document numbers it: 0 while off. Two windows share 1, so it is no discriminant.
fn mode_no(s: State) -> u32
    ensures { result ≡ mode_no s }
{
    match s.window {
        Window::Off => 0,
        Window::D | Window::N => 1,
    }
}

fn window_word(s: State) -> u32
    ensures { result ≡ window_no s.window }
{
    s.window as u32
}

fn hand_config(r: Record, answer: &mut [u8]) -> Reply
    requires { feature_size ≤ length answer.old }
    ensures { (c : Command) → Replied (answer_of Kind.GetConfig c r) answer.old result answer.new }
{
    let s = r.state;
    config_onto(s.config, answer);
    give(mode_no(s), FEATURE_SIZE)
}

// The whole page is written straight into the answer; another part of it is made first.
fn hand_latency(r: Record, c: Command, answer: &mut [u8]) -> Reply
    requires { (offset c ≤ (shape_of Kind.ReadLatency).page) × (needs_out Kind.ReadLatency c ≤ length answer.old) }
    ensures { Replied (answer_of Kind.ReadLatency c r) answer.old result answer.new }
{
    let from = offset_of(c) as usize;
    let n = needs_out(Kind::ReadLatency, c) as usize;
    if from == 0 && n == LATENCY_SIZE {
        latency_onto(r, answer);
        return give(0, n);
    }
    let mut page = [0u8; LATENCY_SIZE];
    latency_onto(r, &mut page);
    replies::hand_out(SUCCESS, 0, &page, from, n, answer)
}

fn hand_window(r: Record) -> Reply
    ensures { (c : Command) (before : List ℕ) → Replied (answer_of Kind.GetWindow c r) before result before }
{
    give(window_word(r.state), 0)
}

// A match, and no closure for each kind: they differ in what they are handed.
pub fn hand_by(k: Kind, c: Command, r: Record, answer: &mut [u8]) -> Reply
    requires { (is_named k ≡ true) × ((shape_of k).part ≡ true → offset c ≤ (shape_of k).page) × (needs_out k c ≤ length answer.old) }
    ensures { Replied (answer_of k c r) answer.old result answer.new }
{
    match k {
        Kind::GetConfig => hand_config(r, answer),
        Kind::GetWindow => hand_window(r),
        Kind::ReadLatency => hand_latency(r, c, answer),
        _ => done(),
    }
}

// Dword 0 of Get Features 0Bh, where the document has one bit of it.
pub fn notices_no(on: bool) -> u32
    ensures { result ≡ notices_no on }
{
    if on { NOTICES_BIT } else { 0 }
}
