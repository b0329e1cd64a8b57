// Log page 0Bh, the aggregate list, from the word of listed marks: the count is its ones, the next entry its lowest one. A caller
// takes the page with its count and puts the entries on it one by one, since it is the table that has the identifiers.
ghost use Rattle.std.specs.Prelude.{◌≡◌, ◌+◌, ◌<◌, ◌≤◌, length};
ghost use Rattle.std.specs.Int.Count.{ones};
ghost use Rattle.std.proofs.lemmas.List.Edits.{sets};
ghost use Rattle.octets.specs.Octets.{bytes_of};
ghost use Rattle.pages.specs.Aggregate.{lowest_one, without_lowest, listed_size, count_page};

use octets::Place;
use record::{SetId, Slot};

pub const AGGREGATE_SIZE: usize = 136;

const COUNT: Place = Place { at: 0, width: 8 };

pub const FIRST_LISTED: usize = 8;

pub const LISTED_SIZE: usize = 2;

fn count_of(word: u64) -> u64
    ensures { result ≡ ones word }
{
    u64::from(word.count_ones())
}

pub fn clear_lowest(word: u64) -> u64
    requires { 0 < word }
    ensures { result ≡ without_lowest word }
{
    word & (word - 1)
}

// The slot of the word's lowest one: "the slot of the next listed set".
pub fn lowest(word: u64) -> Slot
    ensures { result.0 ≡ lowest_one word }
{
    Slot(word.trailing_zeros() as usize)
}

// The page with its count, and no entry yet.
pub fn count_page(word: u64) -> [u8; AGGREGATE_SIZE]
    ensures { result ≡ count_page (ones word) }
{
    let mut page = [0; AGGREGATE_SIZE];
    COUNT.put(&mut page, 0, count_of(word));
    page
}

// The entry at `to`.
pub fn put_listed(page: &mut [u8], to: usize, id: SetId)
    requires { to + listed_size ≤ length page.old }
    ensures { page.new ≡ sets page.old to (bytes_of listed_size id.0) }
{
    octets::put(page, to, LISTED_SIZE, u64::from(id.0));
}
