// Legality of one record, as a test.
ghost use Rattle.std.specs.Prelude.{◌≡◌};
ghost use Rattle.record.specs.Legal.{in_range, legal_sizes, legal_attributes, within_limits, within_need, legal_state, legal_notes, legal_record};

use crate::{Attributes, Notes, Record, Recovery, Spent, State, Window};

pub const NUMBER_MAXIMUM: u32 = 65535;

// A field of 4 bytes holds no more: the type says it again.
pub const FOUR_BYTES_MAXIMUM: u32 = 4294967295;

pub const TYPICAL_MAXIMUM: u32 = 4294967295;

pub const DAY_MS: u32 = 86400000;

// Of a number as it stands in a word of the table or in a body, which may be larger than its field.
pub fn in_range(most: u32, x: u64) -> bool
    ensures { result ≡ in_range most x }
{
    (1..=u64::from(most)).contains(&x)
}

fn sizes_legal(a: Attributes) -> bool
    ensures { result ≡ legal_sizes a }
{
    in_range(NUMBER_MAXIMUM, u64::from(a.id.0))
        && in_range(NUMBER_MAXIMUM, u64::from(a.group.0))
        && a.random_read_typical <= FOUR_BYTES_MAXIMUM
        && a.optimal_write_size <= FOUR_BYTES_MAXIMUM
        && a.unallocated <= a.total
}

pub fn attributes_legal(a: Attributes) -> bool
    ensures { result ≡ legal_attributes a }
{
    sizes_legal(a)
        && in_range(TYPICAL_MAXIMUM, u64::from(a.reads_typical))
        && in_range(TYPICAL_MAXIMUM, u64::from(a.writes_typical))
        && in_range(DAY_MS, u64::from(a.time_maximum))
        && in_range(DAY_MS, u64::from(a.minimum_high))
        && in_range(DAY_MS, u64::from(a.minimum_low))
        && a.minimum_low <= a.minimum_high
}

impl Spent {
    fn is_within(self, a: Attributes) -> bool
        ensures { result ≡ within_limits a self }
    {
        self.reads <= a.reads_typical
            && self.writes <= a.writes_typical
            && self.time < a.time_maximum
    }
}

impl Recovery {
    fn is_within(self, a: Attributes) -> bool
        ensures { result ≡ within_need a self }
    {
        a.minimum_low <= self.need && self.need <= a.minimum_high && self.time <= self.need
    }
}

pub fn state_legal(a: Attributes, s: State) -> bool
    ensures { result ≡ legal_state a s }
{
    match s.window {
        Window::Off => s.spent == Spent::NONE && s.recovery == Recovery::NONE,
        Window::D => s.spent.is_within(a) && s.recovery == Recovery::NONE,
        Window::N => s.spent == Spent::NONE && s.recovery.is_within(a),
    }
}

pub fn notes_legal(n: Notes) -> bool
    ensures { result ≡ legal_notes n }
{
    !n.listed || n.events.any()
}

pub fn record_legal(r: Record) -> bool
    ensures { result ≡ legal_record r }
{
    attributes_legal(r.attributes) && state_legal(r.attributes, r.state) && notes_legal(r.notes)
}
