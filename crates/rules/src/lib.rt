// What each item does to one set. A rule sees attributes and state, never events or the listed mark, and answers an effect. The two go
// from function to function as two: a type of both would be taken apart again by each, and a record has the notes as well, which no
// rule may see.
#![tactic(auto)]

pub mod changes;
pub mod door;
mod need;

ghost use Rattle.std.specs.Prelude.{◌≡◌, ◌+◌};
ghost use Rattle.record.specs.declared.Window.{Window};
ghost use Rattle.rules.specs.Door.{carried_by, going};
ghost use Rattle.rules.specs.Rules.{noting, still, only_in_d, cause_of_mode, configure, is_early, on_entering, moving, selecting, is_over, recovering, leaving, charge, read_event, write_event, excursion_event, media_rule, tick, clearing_read};

use crate::changes::moved;
use crate::door::{carried_over, go, go_from};
use record::event::entering_d;
use record::parts::{effect_of, recovered};
use record::quantities::capped;
use record::{Attributes, Config, Effect, Events, Quantity, State, Window};

// What can change a set's window: the columns of the table of window changes.
#[derive(Clone, Copy)]
pub enum Cause {
    Enable = 0,
    Disable = 1,
    SelectD = 2,
    SelectN = 3,
    Excursion = 4,
    Exceeded = 5,
    TimeUp = 6,
}

// An entry of the table of window changes: one of three, so no Option. Never: that cause does not arise in that window.
#[derive(Clone, Copy)]
pub enum Next {
    Never,
    Refuse,
    To(Window),
}

// What the media layer reports of a set.
#[derive(Clone, Copy)]
pub enum Media {
    Reads(u16),
    Writes(u16),
    Excursion,
}

fn note(s: State, e: Events) -> Effect
    ensures { result ≡ noting s e }
{
    effect_of(s, e, false)
}

pub fn keep_still(s: State) -> Effect
    ensures { result ≡ still s }
{
    note(s, Events::none())
}

// Enable or disable. That each cause stands in the code lets the compiler read the table's columns ahead.
fn go_by_mode(a: Attributes, s: State, on: bool) -> State
    ensures { result ≡ going (cause_of_mode on) a s }
{
    if on {
        go(Cause::Enable, a, s)
    } else {
        go(Cause::Disable, a, s)
    }
}

// Set Features 13h: enable or disable, with what it stores.
pub fn set_mode(a: Attributes, s: State, on: bool, c: Config) -> Effect
    ensures { result ≡ configure on c a s }
{
    keep_still(State {
        config: c,
        ..go_by_mode(a, s, on)
    })
}

// Where the need is met the table is not asked.
pub fn is_early(s: State, c: Cause) -> bool
    ensures { result ≡ is_early c s }
{
    !s.recovery.is_met() && s.window == Window::N && moved(s.window, c) == Window::D
}

fn on_entering(w: Window, a: Attributes, c: Config) -> Events
    ensures { result ≡ on_entering w a c }
{
    match w {
        Window::Off | Window::N => Events::NONE,
        Window::D => entering_d(a, c),
    }
}

// What happens where a set moves from v to w, and nothing where it does not.
fn moving(v: Window, w: Window, e: Events) -> Events
    ensures { result ≡ moving v w e }
{
    if v == w { Events::NONE } else { e }
}

#[inline(always)]
pub fn go_to_selected(a: Attributes, s: State, c: Cause) -> Effect
    ensures { result ≡ selecting c a s }
{
    let t = go(c, a, s);
    let events = on_entering(t.window, a, s.config);
    note(t, moving(s.window, t.window, events))
}

// Reads and writes leave D past their typical, time at its maximum.
fn is_over(q: Quantity, most: u64, n: u64) -> bool
    ensures { result ≡ is_over q most n }
{
    match q {
        Quantity::Reads | Quantity::Writes => most < n,
        Quantity::Time => most <= n,
    }
}

// t ms more of N time, up to the need.
fn recover(s: State, t: u64) -> State
    ensures { result ≡ recovering t s }
{
    let need = s.recovery.need;
    let n = capped(s.recovery.time, t, need);
    State {
        recovery: recovered(n, need),
        ..s
    }
}

// Out of D by a cause: through the door, and what of an excess it carries over.
fn leave_by(c: Cause, a: Attributes, s: State, excess: u64) -> State
    requires { s.window ≡ Window.D }
    ensures { result ≡ recovering (carried_by c excess) (going c a s) }
{
    recover(go_from(Window::D, c, a, s), carried_over(c, excess))
}

// Out of D with n of a quantity. That each cause stands in the code lets the compiler make only its own need.
fn leave_d(a: Attributes, s: State, q: Quantity, n: u64) -> State
    requires { s.window ≡ Window.D }
    ensures { result ≡ leaving q n a s }
{
    let excess = n.saturating_sub(u64::from(a.limit(q)));
    match q {
        Quantity::Reads | Quantity::Writes => leave_by(Cause::Exceeded, a, s, excess),
        Quantity::Time => leave_by(Cause::TimeUp, a, s, excess),
    }
}

fn charge_by(a: Attributes, s: State, q: Quantity, k: u32) -> Effect
    requires { s.window ≡ Window.D }
    ensures { result ≡ charge q k a s }
{
    let most = u64::from(a.limit(q));
    let count = u64::from(s.spent.of(q));
    let n = count + u64::from(k);
    let warns = s
        .config
        .warns(q, most.saturating_sub(count), most.saturating_sub(n));
    let low = Events::warning(q, warns);
    if is_over(q, most, n) {
        note(leave_d(a, s, q, n), low.and_exceeded())
    } else {
        note(s.with_spent(q, n as u32), low)
    }
}

fn charge_in_d(a: Attributes, s: State, q: Quantity, k: u16) -> Effect
    ensures { result ≡ only_in_d s (charge q k a s) }
{
    match s.window {
        Window::Off | Window::N => keep_still(s),
        Window::D => charge_by(a, s, q, u32::from(k)),
    }
}

// Two names for one rule, as specs/ has them: each is cited by its own.
pub fn read_event(a: Attributes, s: State, k: u16) -> Effect
    ensures { result ≡ read_event k a s }
{
    charge_in_d(a, s, Quantity::Reads, k)
}

pub fn write_event(a: Attributes, s: State, k: u16) -> Effect
    ensures { result ≡ write_event k a s }
{
    charge_in_d(a, s, Quantity::Writes, k)
}

fn excursion_from(v: Window, a: Attributes, s: State) -> Effect
    requires { s.window ≡ v }
    ensures { result ≡ excursion_event a s }
{
    let t = go_from(v, Cause::Excursion, a, s);
    note(t, moving(v, t.window, Events::EXCURSION))
}

pub fn excursion_event(a: Attributes, s: State) -> Effect
    ensures { result ≡ excursion_event a s }
{
    match s.window {
        Window::Off => excursion_from(Window::Off, a, s),
        Window::D => excursion_from(Window::D, a, s),
        Window::N => excursion_from(Window::N, a, s),
    }
}

pub fn media_event(a: Attributes, s: State, m: Media) -> Effect
    ensures { result ≡ media_rule m a s }
{
    match m {
        Media::Reads(k) => read_event(a, s, k),
        Media::Writes(k) => write_event(a, s, k),
        Media::Excursion => excursion_event(a, s),
    }
}

pub fn tick_event(a: Attributes, s: State, t: u32) -> Effect
    ensures { result ≡ tick t a s }
{
    match s.window {
        Window::Off => keep_still(s),
        Window::D => charge_by(a, s, Quantity::Time, t),
        Window::N => keep_still(recover(s, u64::from(t))),
    }
}

// A read of page 0Ah with Retain 0.
pub fn clearing_read(s: State) -> Effect
    ensures { result ≡ clearing_read s }
{
    effect_of(s, Events::NONE, true)
}
