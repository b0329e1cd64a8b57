// One NVM Set's record, by value: its parts, legality, estimates and events.
// What an item does to a set is an effect; `event::settle` alone writes events and the listed mark.
#![tactic(auto)]

pub mod event;
pub mod legal;
pub mod parts;
pub mod quantities;
pub mod windows;

// Set identifiers, slot numbers and endurance group numbers: three kinds that can't be mixed.
#[derive(Clone, Copy)]
pub struct SetId(pub u16);

#[derive(Clone, Copy)]
pub struct Slot(pub usize);

#[derive(Clone, Copy)]
pub struct Group(pub u16);

// A capacity of 16 bytes, as its upper and lower 64 bits: in this order, by which two are compared.
#[derive(Clone, Copy, PartialEq, Eq, PartialOrd, Ord)]
pub struct Capacity {
    pub high: u64,
    pub low: u64,
}

// Static: no item changes it. Times are in milliseconds. Typicals, times and counts are u32, as 01's ranges are, so that no sum of two of
// them and no product wraps in 64 bits, whatever the record.
#[derive(Clone, Copy)]
pub struct Attributes {
    pub id: SetId,
    pub group: Group,
    pub random_read_typical: u32,
    pub optimal_write_size: u32,
    pub total: Capacity,
    pub unallocated: Capacity,
    pub reads_typical: u32,
    pub writes_typical: u32,
    pub time_maximum: u32,
    pub minimum_high: u32,
    pub minimum_low: u32,
}

// Off is the mode off: a set that is on is in D, the deterministic window, or in N, the non-deterministic one. The numbers are those of
// page 0Ah, of the words and of the rows of the table of window changes.
#[derive(Clone, Copy, PartialEq, Eq)]
pub enum Window {
    Off = 0,
    D = 1,
    N = 2,
}

// What a set uses up in D: each has a limit, a count, a threshold and a warning.
#[derive(Clone, Copy)]
pub enum Quantity {
    Reads,
    Writes,
    Time,
}

// The five event bits, in ENEV as in the event type: 0, 1 and 2 for the warnings, 14 for exceeded, 15 for excursion.
#[derive(Clone, Copy)]
pub struct Events {
    pub reads: bool,
    pub writes: bool,
    pub time: bool,
    pub exceeded: bool,
    pub excursion: bool,
}

#[derive(Clone, Copy)]
pub struct Thresholds {
    pub reads: u64,
    pub writes: u64,
    pub time: u64,
}

// What Set Features 13h stores beside the mode: ENEV and the three thresholds.
#[derive(Clone, Copy)]
pub struct Config {
    pub enabled: Events,
    pub thresholds: Thresholds,
}

// What is spent in D. All zero outside D.
#[derive(Clone, Copy, PartialEq, Eq)]
pub struct Spent {
    pub reads: u32,
    pub writes: u32,
    pub time: u32,
}

// What is recovered in N: the time in it, and the need, which it must reach before D may be selected. Both zero outside N.
#[derive(Clone, Copy, PartialEq, Eq)]
pub struct Recovery {
    pub time: u32,
    pub need: u32,
}

// What the rules read and change.
#[derive(Clone, Copy)]
pub struct State {
    pub window: Window,
    pub config: Config,
    pub spent: Spent,
    pub recovery: Recovery,
}

// What the host is told. No rule reads it.
#[derive(Clone, Copy)]
pub struct Notes {
    pub events: Events,
    pub listed: bool,
}

#[derive(Clone, Copy)]
pub struct Record {
    pub attributes: Attributes,
    pub state: State,
    pub notes: Notes,
}

// What an item does to a set: the state after it, the events that happened, and whether it was a clearing read.
#[derive(Clone, Copy)]
pub struct Effect {
    pub state: State,
    pub happened: Events,
    pub clears: bool,
}
