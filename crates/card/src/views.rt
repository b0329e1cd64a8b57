// The pages of the whole card: 0Bh and Identify, from the table.
ghost use Rattle.std.specs.Prelude.{◌≡◌, ◌+◌, ◌<◌, ◌≤◌, length};
ghost use Rattle.std.proofs.lemmas.List.Edits.{sets};
ghost use Rattle.octets.specs.Octets.{bytes_of};
ghost use Rattle.octets.specs.Pages.{puts};
ghost use Rattle.record.specs.Parts.{id_of};
ghost use Rattle.table.specs.Layout.{record_of};
ghost use Rattle.table.specs.Table.{row_start, row, records_of, listed_word, Legal};
ghost use Rattle.pages.specs.Aggregate.{lowest_one, aggregate_size, first_listed, listed_size, entries_from, aggregate_page};
ghost use Rattle.pages.specs.Identify.{entry_size, identify_size, identify_page, Shows};
ghost use Rattle.steps.specs.Commanded.{listed_ids, attributes_of};
ghost use Rattle.by_value.specs.Views.{ShowsAll};

use octets::cells::Cell;
use pages::aggregate::{
    AGGREGATE_SIZE, FIRST_LISTED, LISTED_SIZE, clear_lowest, count_page, lowest, put_listed,
};
use pages::identify::{FIRST_ENTRY, IDENTIFY_SIZE, put_count, show};
use record::{SetId, Slot};
use table::{count_of, id_of, listed_word, load};

// The entry of the word's lowest one: "the next entry its lowest one".
fn put_next<C: Cell>(page: &mut [u8], to: usize, table: &[C], left: u64)
    requires { (row_start (lowest_one left + 1) ≤ length (C.words table.now)) × (to + listed_size ≤ length page.old) }
    ensures { page.new ≡ sets page.old to (bytes_of listed_size (id_of (record_of (row (C.words table.now) (lowest_one left))))) }
{
    let slot = lowest(left);
    put_listed(page, to, id_of(table, slot));
}

// An entry for each one of the word of listed marks, from the lowest up: the word that is left counts the turns, so no range does.
fn list_all<C: Cell>(page: &mut [u8], table: &[C], word: u64)
    requires { Legal (C.words table.now) × (word ≡ listed_word (records_of (C.words table.now))) × (aggregate_size ≤ length page.old) }
    ensures { page.new ≡ puts page.old (entries_from first_listed (listed_ids (records_of (C.words table.now)))) }
{
    let mut left = word;
    let mut to = FIRST_LISTED;
    while 0 < left {
        put_next(page, to, table, left);
        left = clear_lowest(left);
        to += LISTED_SIZE;
    }
}

pub(crate) fn aggregate_of<C: Cell>(table: &[C]) -> [u8; AGGREGATE_SIZE]
    requires { Legal (C.words table.now) }
    ensures { result ≡ aggregate_page (listed_ids (records_of (C.words table.now))) }
{
    let word = listed_word(table);
    let mut p = count_page(word);
    list_all(&mut p, table, word);
    p
}

// The set of one slot, if it is to be shown; the answer is the next place.
fn show_slot<C: Cell>(page: &mut [u8], to: usize, table: &[C], slot: Slot, from: SetId) -> usize
    requires { (to + entry_size ≤ length page.old) × (row_start (slot.0 + 1) ≤ length (C.words table.now)) }
    ensures { Shows from.0 (record_of (row (C.words table.now) slot.0)).attributes page.old to page.new result }
{
    let r = load(table, slot);
    let a = r.attributes;
    show(page, to, a, from)
}

// The sets of one answer, until none is left or the page is full.
fn show_all<C: Cell>(page: &mut [u8], table: &[C], from: SetId) -> usize
    requires { Legal (C.words table.now) × (identify_size ≤ length page.old) }
    ensures { ShowsAll from.0 (attributes_of (records_of (C.words table.now))) page.old page.new result }
{
    let mut to = FIRST_ENTRY;
    for i in 0..count_of(table) {
        let is_full = IDENTIFY_SIZE <= to;
        if is_full {
            return to;
        }
        to = show_slot(page, to, table, Slot(i), from);
    }
    to
}

pub(crate) fn set_list_onto<C: Cell>(table: &[C], from: SetId, answer: &mut [u8])
    requires { Legal (C.words table.now) × (identify_size ≤ length answer.old) }
    ensures { answer.new ≡ sets answer.old 0 (identify_page from.0 (attributes_of (records_of (C.words table.now)))) }
{
    octets::clear(answer, IDENTIFY_SIZE);
    let end = show_all(answer, table, from);
    put_count(answer, end);
}
