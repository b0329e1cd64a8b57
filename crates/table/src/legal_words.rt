// Legality of a row, straight on its words: `legal_words` ties it to that of the record.
ghost use Rattle.std.specs.Prelude.{◌≡◌, if◌then◌else◌};
ghost use Rattle.table.specs.Table.{legal_after};
ghost use Rattle.table.specs.LegalWords.{capacities_legal, statics_legal, within_bits, changing_legal, notes_legal};

use crate::layout::ROW;
use record::Events;
use record::legal::{DAY_MS, NUMBER_MAXIMUM, TYPICAL_MAXIMUM, in_range};

// As a word: `record`'s is of four bytes.
const FOUR_BYTES_MAXIMUM: u64 = record::legal::FOUR_BYTES_MAXIMUM as u64;

// On the four words, since two capacities of them would have to be built first.
fn capacities_legal(a: [u64; ROW]) -> bool
    ensures { result ≡ capacities_legal a }
{
    if a[7] == a[5] {
        a[6] <= a[4]
    } else {
        a[7] < a[5]
    }
}

fn statics_legal(a: [u64; ROW]) -> bool
    ensures { result ≡ statics_legal a }
{
    let id = in_range(NUMBER_MAXIMUM, a[0]);
    let group = in_range(NUMBER_MAXIMUM, a[1]);
    let random = a[2] <= FOUR_BYTES_MAXIMUM;
    let optimal = a[3] <= FOUR_BYTES_MAXIMUM;
    let capacities = capacities_legal(a);
    let reads = in_range(TYPICAL_MAXIMUM, a[8]);
    let writes = in_range(TYPICAL_MAXIMUM, a[9]);
    let time = in_range(DAY_MS, a[10]);
    let high = in_range(DAY_MS, a[11]);
    let low = in_range(DAY_MS, a[12]);
    let sizes = id & group & random & optimal & capacities;
    sizes & reads & writes & time & high & low & (a[12] <= a[11])
}

fn within_bits(x: u64) -> bool
    ensures { result ≡ within_bits x }
{
    x == u64::from(Events::from_bits_truncate(x))
}

// The limit where it holds, or the one elsewhere, so that the test against it needs no branch.
fn limit_in(here: bool, most: u64, elsewhere: u64) -> u64
    ensures { result ≡ (if here then most else elsewhere) }
{
    if here { most } else { elsewhere }
}

fn changing_legal(a: [u64; ROW]) -> bool
    ensures { result ≡ changing_legal a }
{
    let d = a[17] == 1;
    let n = a[17] == 2;
    let enev = within_bits(a[13]);
    let reads = limit_in(d, a[8], 0);
    let writes = limit_in(d, a[9], 0);
    let time = limit_in(d, a[10], 1);
    let high = limit_in(n, a[11], 0);
    let low = limit_in(n, a[12], 0);
    let need = (low <= a[22]) & (a[22] <= high);
    enev & (a[17] <= 2)
        & (a[18] <= reads)
        & (a[19] <= writes)
        & (a[20] < time)
        & (a[21] <= a[22])
        & need
}

fn notes_legal(a: [u64; ROW]) -> bool
    ensures { result ≡ notes_legal a }
{
    let events = within_bits(a[23]);
    let most = limit_in(a[23] == 0, 0, 1);
    events & (a[24] <= most)
}

// Whether a row is legal and its identifier is above the one before.
pub fn follows(before: u64, a: [u64; ROW]) -> bool
    ensures { result ≡ legal_after before a }
{
    before < a[0] && statics_legal(a) && changing_legal(a) & notes_legal(a)
}
