// Set-up from 84-byte bodies.
ghost use Rattle.std.specs.Prelude.{◌≡◌, map, ◌*◌, ◌≤◌, length};
ghost use Rattle.table.specs.Table.{row_start, written_rows};
ghost use Rattle.pages.specs.Bodies.{body_size};
ghost use Rattle.steps.specs.SetUp.{attributes_from, SetUp};
ghost use Rattle.by_value.specs.SetUp.{kept_record};

use by_value::set_up::{new_record, refusal};
use octets::cells::Cell;
use pages::bodies::{BODY, attributes_in};
use record::Slot;
use replies::numbers::SUCCESS;
use table::layout::LAYOUT;
use table::store;

// The rows of n new sets.
fn write_rows<C: Cell>(table: &mut [C], bytes: &[u8], n: usize)
    requires { (n * body_size ≤ length bytes.now) × (row_start n ≤ length (C.words table.old)) }
    ensures words { C.words table.new ≡ written_rows (C.words table.old) (map kept_record (attributes_from bytes.now 0 n)) }
    ensures rest { C.rest table.new ≡ C.rest table.old }
{
    for i in 0..n {
        let a = attributes_in(bytes, i * BODY);
        store(table, Slot(i), new_record(a));
    }
}

// Nothing is written unless all is well. The status is its number, since C and the printout have no other.
pub fn set_up<C: Cell>(table: &mut [C], bytes: &[u8]) -> u16
    ensures done { SetUp bytes.now (C.words table.old) (C.words table.new) result }
    ensures rest { C.rest table.new ≡ C.rest table.old }
{
    if let Err(refusal) = refusal(bytes, C::room(table)) {
        return u16::from(refusal);
    }
    let n = bytes.len() / BODY;
    let header = [LAYOUT, n as u64, 0, 0, 0, 0, 0, 0, 0, 0];
    C::write(table, 0, &header);
    write_rows(table, bytes, n);
    SUCCESS
}
