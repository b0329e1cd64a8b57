// One set as a row of words, and back.
ghost use Rattle.std.specs.Prelude.{◌≡◌};
ghost use Rattle.record.specs.Parts.{id_of};
ghost use Rattle.table.specs.Layout.{field_words, words_of, window_in, attributes_at, state_at, notes_at, record_of};

use record::parts::{config_of, recovered, spent, state_of};
use record::{Attributes, Capacity, Events, Group, Notes, Record, SetId, State, Window};

// The header: the number of this layout, which every change of it raises, the number of sets, and the desk.
pub const HEADER: usize = 10;

pub const LAYOUT: u64 = 65539;

// Where in it the desk begins.
pub const DESK_START: usize = 2;

pub const ROW: usize = 25;

// Places in a row: of the window, after which come all words that items other than Set Features 13h change; of the events, with
// which the notes begin; and of the listed mark.
pub const WINDOW: usize = 17;

pub const NOTES: usize = 23;

pub const LISTED: usize = 24;

fn field_words(r: Record) -> [u64; ROW]
    ensures { result ≡ field_words r }
{
    let attributes = r.attributes;
    let state = r.state;
    let config = state.config;
    let enabled = u64::from(config.enabled);
    let window = u64::from(state.window);
    let events = u64::from(r.notes.events);
    [
        u64::from(attributes.id.0),
        u64::from(attributes.group.0),
        u64::from(attributes.random_read_typical),
        u64::from(attributes.optimal_write_size),
        attributes.total.low,
        attributes.total.high,
        attributes.unallocated.low,
        attributes.unallocated.high,
        u64::from(attributes.reads_typical),
        u64::from(attributes.writes_typical),
        u64::from(attributes.time_maximum),
        u64::from(attributes.minimum_high),
        u64::from(attributes.minimum_low),
        enabled,
        config.thresholds.reads,
        config.thresholds.writes,
        config.thresholds.time,
        window,
        u64::from(state.spent.reads),
        u64::from(state.spent.writes),
        u64::from(state.spent.time),
        u64::from(state.recovery.time),
        u64::from(state.recovery.need),
        events,
        u64::from(r.notes.listed),
    ]
}

// Asked of rows that are not legal too: then any other number stands for N.
fn window_in(n: u64) -> Window
    ensures { result ≡ window_in n }
{
    Window::try_from(n).unwrap_or(Window::N)
}

fn attributes_at(a: [u64; ROW]) -> Attributes
    ensures { result ≡ attributes_at a }
{
    Attributes {
        id: SetId((a[0] % 65536) as u16),
        group: Group((a[1] % 65536) as u16),
        random_read_typical: (a[2] % 4294967296) as u32,
        optimal_write_size: (a[3] % 4294967296) as u32,
        total: Capacity {
            low: a[4],
            high: a[5],
        },
        unallocated: Capacity {
            low: a[6],
            high: a[7],
        },
        reads_typical: (a[8] % 4294967296) as u32,
        writes_typical: (a[9] % 4294967296) as u32,
        time_maximum: (a[10] % 4294967296) as u32,
        minimum_high: (a[11] % 4294967296) as u32,
        minimum_low: (a[12] % 4294967296) as u32,
    }
}

fn state_at(a: [u64; ROW]) -> State
    ensures { result ≡ state_at a }
{
    let window = window_in(a[17]);
    let enabled = Events::from_bits_truncate(a[13]);
    let config = config_of(enabled, a[14], a[15], a[16]);
    let spent = spent(
        (a[18] % 4294967296) as u32,
        (a[19] % 4294967296) as u32,
        (a[20] % 4294967296) as u32,
    );
    let recovery = recovered((a[21] % 4294967296) as u32, (a[22] % 4294967296) as u32);
    state_of(window, config, spent, recovery)
}

fn notes_at(a: [u64; ROW]) -> Notes
    ensures { result ≡ notes_at a }
{
    let events = Events::from_bits_truncate(a[23]);
    Notes {
        events,
        listed: a[24] == 1,
    }
}

pub fn record_of(a: [u64; ROW]) -> Record
    ensures { result ≡ record_of a }
{
    let attributes = attributes_at(a);
    let state = state_at(a);
    let notes = notes_at(a);
    Record {
        attributes,
        state,
        notes,
    }
}

pub fn words_of(r: Record) -> [u64; ROW]
    ensures { result ≡ words_of r }
{
    field_words(r)
}

pub fn id_in(a: [u64; ROW]) -> u64
    ensures { result ≡ id_of (record_of a) }
{
    a[0] % 65536
}
