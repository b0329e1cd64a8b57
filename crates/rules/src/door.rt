// The one door between windows: nothing else makes a window, and all that hangs on the cause stands here.
ghost use Rattle.std.specs.Prelude.{◌≡◌, min};
ghost use Rattle.rules.specs.Changes.{moved_by};
ghost use Rattle.rules.specs.Door.{restarts, carried_by, need_by, need_in, into, stays, going};

use crate::Cause;
use crate::changes::moved;
use crate::need::{full_need, need_after};
use record::parts::{recovered, state_of};
use record::{Attributes, Spent, State, Window};

fn starts_again(c: Cause) -> bool
    ensures { result ≡ restarts c }
{
    matches!(c, Cause::Enable | Cause::Disable)
}

// What of an excess becomes N time.
pub(crate) fn carried_over(c: Cause, excess: u64) -> u64
    ensures { result ≡ carried_by c excess }
{
    match c {
        Cause::TimeUp => excess,
        _ => 0,
    }
}

// How long the N must last that a cause leads to, after n ms in D.
fn need_by(c: Cause, a: Attributes, n: u32) -> u32
    ensures { result ≡ need_by c a (min n a.time_maximum) }
{
    match c {
        Cause::Enable => a.minimum_high,
        Cause::Disable | Cause::SelectD => 0,
        Cause::SelectN | Cause::Excursion | Cause::Exceeded => need_after(a, n),
        Cause::TimeUp => full_need(a),
    }
}

// Only N has a need.
fn need_in(w: Window, c: Cause, a: Attributes, s: State) -> u32
    ensures { result ≡ need_in w c a s }
{
    match w {
        Window::Off | Window::D => 0,
        Window::N => need_by(c, a, s.spent.time),
    }
}

// A window's start, with nothing spent and no time in N.
fn start(w: Window, c: Cause, a: Attributes, s: State) -> State
    ensures { result ≡ into w c a s }
{
    let need = need_in(w, c, a, s);
    state_of(w, s.config, Spent::NONE, recovered(0, need))
}

fn is_staying(c: Cause, v: Window, next: Window) -> bool
    requires { next ≡ moved_by v c }
    ensures { result ≡ stays c v }
{
    next == v && !starts_again(c)
}

// The state after a cause, for a set in window v. Where a caller writes the window down the compiler reads the table's entry ahead.
#[inline(always)]
pub(crate) fn go_from(v: Window, c: Cause, a: Attributes, s: State) -> State
    requires { s.window ≡ v }
    ensures { result ≡ going c a s }
{
    let next = moved(v, c);
    if is_staying(c, v, next) {
        s
    } else {
        start(next, c, a, s)
    }
}

// The state after a cause.
#[inline(always)]
pub fn go(c: Cause, a: Attributes, s: State) -> State
    ensures { result ≡ going c a s }
{
    match s.window {
        Window::Off => go_from(Window::Off, c, a, s),
        Window::D => go_from(Window::D, c, a, s),
        Window::N => go_from(Window::N, c, a, s),
    }
}
