// Estimates, warnings, and the one place that writes events and the listed mark.
ghost use Rattle.std.specs.Prelude.{◌≡◌, ◌<◌};
ghost use Rattle.record.specs.Event.{estimate, bits_of, events_in, events_of, no_events, some_event, any_enabled, joined, warning, warns, starts_below, entering_d, and_exceeded, settled, is_silent, newly_listed};

use crate::{Attributes, Config, Effect, Events, Notes, Quantity, Record, State, Window};

// The bits of ENEV and of the event type.
const READS: u64 = 0x0001;

const WRITES: u64 = 0x0002;

const TIME: u64 = 0x0004;

const EXCEEDED: u64 = 0x4000;

const EXCURSION: u64 = 0x8000;

pub fn estimate_of(a: Attributes, s: State, q: Quantity) -> u64
    ensures { result ≡ estimate q a s }
{
    let most = a.limit(q);
    let left = match s.window {
        Window::Off => 0,
        Window::D => most.saturating_sub(s.spent.of(q)),
        Window::N => if s.recovery.is_met() { most } else { 0 },
    };
    u64::from(left)
}

impl Events {
    pub const NONE: Events = Events {
        reads: false,
        writes: false,
        time: false,
        exceeded: false,
        excursion: false,
    };

    pub const EXCURSION: Events = Events {
        excursion: true,
        ..Events::NONE
    };

    fn of(reads: bool, writes: bool, time: bool, exceeded: bool, excursion: bool) -> Events
        ensures { result ≡ events_of reads writes time exceeded excursion }
    {
        Events {
            reads,
            writes,
            time,
            exceeded,
            excursion,
        }
    }

    // NONE, made field by field: a constant is copied as one number, and where the rules join it with the events of a set in D, the
    // compiler then keeps four flags of which it could tell that two are never set. That made a tick 2 ns slower for each set.
    pub fn none() -> Events
        ensures { result ≡ no_events }
    {
        Events::of(false, false, false, false, false)
    }

    // The events of 16 bits: those that stand for no event are not looked at.
    pub fn from_bits_truncate(x: u64) -> Events
        ensures { result ≡ events_in x }
    {
        Events {
            reads: x / READS % 2 == 1,
            writes: x / WRITES % 2 == 1,
            time: x / TIME % 2 == 1,
            exceeded: x / EXCEEDED % 2 == 1,
            excursion: x / EXCURSION % 2 == 1,
        }
    }

    // A quantity's warning, where b says so.
    pub fn warning(q: Quantity, b: bool) -> Events
        ensures { result ≡ warning q b }
    {
        match q {
            Quantity::Reads => Events {
                reads: b,
                ..Events::NONE
            },
            Quantity::Writes => Events {
                writes: b,
                ..Events::NONE
            },
            Quantity::Time => Events {
                time: b,
                ..Events::NONE
            },
        }
    }

    pub fn and_exceeded(self) -> Events
        ensures { result ≡ and_exceeded self }
    {
        Events {
            exceeded: true,
            ..self
        }
    }

    pub fn any(self) -> bool
        ensures { result ≡ some_event self }
    {
        self.reads | self.writes | self.time | self.exceeded | self.excursion
    }

    // Whether one of these is among the enabled ones. In one step, as the next: `(self & enabled).any()`, with `|` for the next, made
    // `store_effect` of `card` too large to become part of its callers (tried: 728 bytes of stack for reads, where it is 376).
    fn any_in(self, enabled: Events) -> bool
        ensures { result ≡ any_enabled self enabled }
    {
        (self.reads & enabled.reads)
            | (self.writes & enabled.writes)
            | (self.time & enabled.time)
            | (self.exceeded & enabled.exceeded)
            | (self.excursion & enabled.excursion)
    }

    // These, where they are kept, and the new ones.
    fn joined(self, kept: bool, new: Events) -> Events
        ensures { result ≡ joined kept self new }
    {
        Events {
            reads: (kept & self.reads) | new.reads,
            writes: (kept & self.writes) | new.writes,
            time: (kept & self.time) | new.time,
            exceeded: (kept & self.exceeded) | new.exceeded,
            excursion: (kept & self.excursion) | new.excursion,
        }
    }
}

// As 16 bits, and so below 65536: as a word, since words are what pages, the table and Set Features 13h hold.
impl From<Events> for u64 {
    ghost from_gives = { λ e x. (x ≡ bits_of e) × (x < 65536) };

    fn from(e: Events) -> u64 {
        let low = u64::from(e.reads) + WRITES * u64::from(e.writes) + TIME * u64::from(e.time);
        low + EXCEEDED * u64::from(e.exceeded) + EXCURSION * u64::from(e.excursion)
    }
}

impl Config {
    // Whether the estimate falls from at or above its threshold to below it, and its bit is enabled.
    pub fn warns(self, q: Quantity, before: u64, after: u64) -> bool
        ensures { result ≡ warns q self before after }
    {
        let least = self.thresholds.of(q);
        self.enabled.enables(q) & (least <= before) & (after < least)
    }
}

fn starts_below(a: Attributes, c: Config, q: Quantity) -> bool
    ensures { result ≡ starts_below q a c }
{
    c.enabled.enables(q) & (u64::from(a.limit(q)) < c.thresholds.of(q))
}

pub fn entering_d(a: Attributes, c: Config) -> Events
    ensures { result ≡ entering_d a c }
{
    Events {
        reads: starts_below(a, c, Quantity::Reads),
        writes: starts_below(a, c, Quantity::Writes),
        time: starts_below(a, c, Quantity::Time),
        ..Events::NONE
    }
}

impl Effect {
    // Whether it leaves the notes as they are.
    pub fn is_silent(self) -> bool
        ensures { result ≡ is_silent self }
    {
        !self.happened.any() & !self.clears
    }
}

// The enable bits are those of the record before the item: what a later ENEV says never lists a set.
pub fn settle(r: Record, e: Effect) -> Record
    ensures { result ≡ settled r e }
{
    let enabled = r.state.config.enabled;
    let kept = !e.clears;
    let events = r.notes.events.joined(kept, e.happened);
    let listed = (kept & r.notes.listed) | e.happened.any_in(enabled);
    Record {
        state: e.state,
        notes: Notes { events, listed },
        ..r
    }
}

// Whether a set was listed by what came between.
pub fn newly_listed(r: Record, x: Record) -> bool
    ensures { result ≡ newly_listed r x }
{
    !r.notes.listed & x.notes.listed
}
