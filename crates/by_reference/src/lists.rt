// Set-up takes a lent list of attribute records.
ghost use Rattle.std.specs.Prelude.{◌≡◌};
ghost use Rattle.pages.specs.Bodies.{body};
ghost use Rattle.steps.specs.SetUp.{with_body, first_bodies, SetUp};
ghost use Rattle.by_reference.specs.Lists.{bodies_of};

use octets::copy_part;
use pages::bodies::{BODY, body_of};
use record::Attributes;
use table::MAX_SETS;

// Room for one body more than a table may have sets: a list that is longer still is refused as that one is.
const ROOM: usize = (MAX_SETS + 1) * BODY;

// A body in the i-th place, where there is room for it.
fn put_body(bytes: &mut [u8], i: usize, a: Attributes)
    ensures { bytes.new ≡ with_body bytes.old i (body a) }
{
    if i < bytes.len() / BODY {
        let body = body_of(a);
        let at = i * BODY;
        copy_part(&body, 0, BODY, &mut bytes[at..]);
    }
}

// How many bodies there are stands beside the bytes: these lie in a buffer of a fixed size.

// Set-up from the first n bodies, or from all that there is room for.
fn set_up_from(table: &mut [u64], bytes: &[u8], n: usize) -> u16
    ensures { SetUp (first_bodies bytes.now n) table.old table.new result }
{
    let end = n.min(bytes.len() / BODY) * BODY;
    card::set_up::set_up(table, &bytes[..end])
}

pub fn set_up(table: &mut [u64], list: &[Attributes]) -> u16
    ensures { SetUp (bodies_of list.now) table.old table.new result }
{
    let mut buffer = [0u8; ROOM];
    for (i, &a) in list.iter().enumerate() {
        put_body(&mut buffer, i, a);
    }
    set_up_from(table, &buffer, list.len())
}
