// Log page 0Ah, Predictable Latency Per NVM Set. The events stand at bytes 3:2 (document 003 shows them at byte 1).
ghost use Rattle.std.specs.Prelude.{◌≡◌, ◌≤◌, length};
ghost use Rattle.std.proofs.lemmas.List.Edits.{sets};
ghost use Rattle.pages.specs.Latency.{latency_size, latency_values, latency_page};

use crate::capacities::limits_of;
use octets::{Place, clear, fill};
use record::event::estimate_of;
use record::{Quantity, Record};

pub const LATENCY_SIZE: usize = 512;

const PLACES: [Place; 10] = [
    Place { at: 0, width: 1 }, // window
    Place { at: 2, width: 2 }, // events
    Place { at: 32, width: 8 }, // reads typical
    Place { at: 40, width: 8 }, // writes typical
    Place { at: 48, width: 8 }, // time maximum
    Place { at: 56, width: 8 }, // minimum high
    Place { at: 64, width: 8 }, // minimum low
    Place { at: 128, width: 8 }, // reads estimate
    Place { at: 136, width: 8 }, // writes estimate
    Place { at: 144, width: 8 }, // time estimate
];

fn numbers_of(r: Record) -> [u64; 10]
    ensures { result ≡ latency_values r }
{
    let a = r.attributes;
    let s = r.state;
    let [reads, writes, time, high, low] = limits_of(a);
    [
        u64::from(s.window),
        u64::from(r.notes.events),
        reads,
        writes,
        time,
        high,
        low,
        estimate_of(a, s, Quantity::Reads),
        estimate_of(a, s, Quantity::Writes),
        estimate_of(a, s, Quantity::Time),
    ]
}

// The page, made on the first bytes of an answer.
pub fn latency_onto(r: Record, answer: &mut [u8])
    requires { latency_size ≤ length answer.old }
    ensures { answer.new ≡ sets answer.old 0 (latency_page r) }
{
    clear(answer, LATENCY_SIZE);
    fill(answer, 0, &PLACES, &numbers_of(r));
}
