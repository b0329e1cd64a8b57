// A set's attributes as the 84 bytes that set-up takes.
ghost use Rattle.std.specs.Prelude.{◌≡◌, ◌+◌, ◌%◌, ◌^◌, ◌≤◌, length};
ghost use Rattle.octets.specs.Pages.{read_at};
ghost use Rattle.record.specs.Legal.{legal_sizes, legal_attributes};
ghost use Rattle.pages.specs.Bodies.{body_size, body, attributes_in, kept_of};

use crate::capacities::{limits_of, sizes_of};
use octets::{Place, fill};
use record::legal::{DAY_MS, FOUR_BYTES_MAXIMUM, NUMBER_MAXIMUM, TYPICAL_MAXIMUM, in_range};
use record::{Attributes, Capacity, Group, SetId};

pub const BODY: usize = 84;

const ID: Place = Place { at: 0, width: 2 };

const GROUP: Place = Place { at: 2, width: 2 };

const RANDOM_READ: Place = Place { at: 4, width: 4 };

const OPTIMAL_WRITE: Place = Place { at: 8, width: 4 };

const TOTAL_LOW: Place = Place { at: 12, width: 8 };

const TOTAL_HIGH: Place = Place { at: 20, width: 8 };

const UNALLOCATED_LOW: Place = Place { at: 28, width: 8 };

const UNALLOCATED_HIGH: Place = Place { at: 36, width: 8 };

const READS: Place = Place { at: 44, width: 8 };

const WRITES: Place = Place { at: 52, width: 8 };

const TIME: Place = Place { at: 60, width: 8 };

const HIGH: Place = Place { at: 68, width: 8 };

const LOW: Place = Place { at: 76, width: 8 };

const SIZES: [Place; 8] = [
    ID,
    GROUP,
    RANDOM_READ,
    OPTIMAL_WRITE,
    TOTAL_LOW,
    TOTAL_HIGH,
    UNALLOCATED_LOW,
    UNALLOCATED_HIGH,
];

const LIMITS: [Place; 5] = [READS, WRITES, TIME, HIGH, LOW];

fn capacity_in(bytes: &[u8], at: usize, low: Place, high: Place) -> Capacity
    requires low { (low.width ≡ 8) × (at + low.at + 8 ≤ length bytes.now) }
    requires high { (high.width ≡ 8) × (at + high.at + 8 ≤ length bytes.now) }
    ensures low { result.low ≡ read_at bytes.now at low }
    ensures high { result.high ≡ read_at bytes.now at high }
{
    Capacity {
        low: low.word(bytes, at),
        high: high.word(bytes, at),
    }
}

// Of a limit's eight bytes the lower four.
fn limit_in(bytes: &[u8], at: usize, p: Place) -> u32
    requires { (p.width ≡ 8) × (at + p.at + 8 ≤ length bytes.now) }
    ensures { result ≡ read_at bytes.now at p % 2 ^ 32 }
{
    (p.word(bytes, at) % (1 << 32)) as u32
}

pub fn attributes_in(bytes: &[u8], at: usize) -> Attributes
    requires { at + body_size ≤ length bytes.now }
    ensures { result ≡ kept_of (attributes_in bytes.now at) }
{
    Attributes {
        id: SetId(ID.short(bytes, at)),
        group: Group(GROUP.short(bytes, at)),
        random_read_typical: RANDOM_READ.dword(bytes, at),
        optimal_write_size: OPTIMAL_WRITE.dword(bytes, at),
        total: capacity_in(bytes, at, TOTAL_LOW, TOTAL_HIGH),
        unallocated: capacity_in(bytes, at, UNALLOCATED_LOW, UNALLOCATED_HIGH),
        reads_typical: limit_in(bytes, at, READS),
        writes_typical: limit_in(bytes, at, WRITES),
        time_maximum: limit_in(bytes, at, TIME),
        minimum_high: limit_in(bytes, at, HIGH),
        minimum_low: limit_in(bytes, at, LOW),
    }
}

// A body's identifier. The bodies stand one after another, and specs/ reads each at its place among them: so a place goes with the bytes.
pub fn body_id(bytes: &[u8], at: usize) -> u64
    requires { at + body_size ≤ length bytes.now }
    ensures { result ≡ (attributes_in bytes.now at).id.0 }
{
    u64::from(ID.short(bytes, at))
}

fn sizes_legal(bytes: &[u8], at: usize) -> bool
    requires { at + body_size ≤ length bytes.now }
    ensures { result ≡ legal_sizes (attributes_in bytes.now at) }
{
    let id = in_range(NUMBER_MAXIMUM, body_id(bytes, at));
    let group = in_range(NUMBER_MAXIMUM, u64::from(GROUP.short(bytes, at)));
    let random = RANDOM_READ.dword(bytes, at) <= FOUR_BYTES_MAXIMUM;
    let optimal = OPTIMAL_WRITE.dword(bytes, at) <= FOUR_BYTES_MAXIMUM;
    let total = capacity_in(bytes, at, TOTAL_LOW, TOTAL_HIGH);
    let unallocated = capacity_in(bytes, at, UNALLOCATED_LOW, UNALLOCATED_HIGH);
    id & group & random & optimal & (unallocated <= total)
}

// Whether a body's attributes are in range, straight on its numbers: what of them is kept says no more whether they were.
pub fn body_legal(bytes: &[u8], at: usize) -> bool
    requires { at + body_size ≤ length bytes.now }
    ensures { result ≡ legal_attributes (attributes_in bytes.now at) }
{
    let sizes = sizes_legal(bytes, at);
    let reads = in_range(TYPICAL_MAXIMUM, READS.word(bytes, at));
    let writes = in_range(TYPICAL_MAXIMUM, WRITES.word(bytes, at));
    let time = in_range(DAY_MS, TIME.word(bytes, at));
    let most = HIGH.word(bytes, at);
    let least = LOW.word(bytes, at);
    let high = in_range(DAY_MS, most);
    let low = in_range(DAY_MS, least);
    sizes & reads & writes & time & high & low & (least <= most)
}

pub fn body_of(a: Attributes) -> [u8; BODY]
    ensures { result ≡ body a }
{
    let mut page = [0; BODY];
    fill(&mut page, 0, &SIZES, &sizes_of(a));
    fill(&mut page, 0, &LIMITS, &limits_of(a));
    page
}
