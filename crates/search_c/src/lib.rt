// The search for a set by itself, on words and on bytes, for C: so that a benchmark can time it (rust/search.rs). These are no
// functions of the card. Unlike those they do not test whether the table is legal, which takes far longer than the search.
#![tactic(auto)]

ghost use Rattle.std.specs.Prelude.{◌≡◌};
ghost use Rattle.table.specs.Table.{Legal, find_in};
ghost use Rattle.region.specs.Region.{table_in};
ghost use Rattle.search_c.specs.Slots.{slot_in};

use record::{SetId, Slot};
use table::MAX_SETS;

// A number for C: the slot, or as many as there can be, which no slot is.
fn slot_in(found: Option<Slot>) -> usize
    ensures { result ≡ slot_in found }
{
    found.map_or(MAX_SETS, |slot| slot.0)
}

#[unsafe(no_mangle)]
pub extern "C" fn search_words(table: &[u64], set: u16) -> usize
    requires { Legal table.now }
    ensures { result ≡ slot_in (find_in table.now set) }
{
    slot_in(table::find(table, SetId(set)))
}

#[unsafe(no_mangle)]
pub extern "C" fn search_bytes(bytes: &[u8], set: u16) -> usize
    requires { Legal (table_in bytes.now) }
    ensures { result ≡ slot_in (find_in (table_in bytes.now) set) }
{
    slot_in(table::find(bytes, SetId(set)))
}
