// Identify 04h, the NVM Set List, one set at a time: a caller shows its sets in order on a page of zeros, then puts the count.
ghost use Rattle.std.specs.Prelude.{◌≡◌, ◌+◌, ◌-◌, ◌/◌, ◌≤◌, length};
ghost use Rattle.std.proofs.lemmas.List.Edits.{sets};
ghost use Rattle.octets.specs.Octets.{bytes_of};
ghost use Rattle.pages.specs.Identify.{entry_size, first_entry, Shows};

use crate::capacities::sizes_of;
use octets::{Place, fill};
use record::{Attributes, SetId};

pub const IDENTIFY_SIZE: usize = 4096;

const COUNT: Place = Place { at: 0, width: 1 };

const ENTRY_SIZE: usize = 128;

pub const FIRST_ENTRY: usize = 128;

// In an entry, whose reserved bytes are the zeros that the page came with.
const PLACES: [Place; 8] = [
    Place { at: 0, width: 2 }, // identifier
    Place { at: 2, width: 2 }, // group
    Place { at: 8, width: 4 }, // random read typical
    Place { at: 12, width: 4 }, // optimal write size
    Place { at: 16, width: 8 }, // total: the lower word
    Place { at: 24, width: 8 }, // and the upper
    Place { at: 32, width: 8 }, // unallocated: the lower word
    Place { at: 40, width: 8 }, // and the upper
];

// The entry of one set, if it is to be shown; the answer is the next place.
pub fn show(page: &mut [u8], to: usize, a: Attributes, from: SetId) -> usize
    requires { to + entry_size ≤ length page.old }
    ensures { Shows from.0 a page.old to page.new result }
{
    if from.0 <= a.id.0 {
        fill(page, to, &PLACES, &sizes_of(a));
        to + ENTRY_SIZE
    } else {
        to
    }
}

// The number of entries before place `to`, in byte 0.
pub fn put_count(page: &mut [u8], to: usize)
    requires { (first_entry ≤ to) × (1 ≤ length page.old) }
    ensures { page.new ≡ sets page.old 0 (bytes_of 1 ((to - first_entry) / entry_size)) }
{
    COUNT.put(page, 0, ((to - FIRST_ENTRY) / ENTRY_SIZE) as u64);
}
