// One caller of each function over a reference, with plain parameters: a program that calls these needs no proof by hand.
ghost use Rattle.std.specs.Prelude.{◌≡◌, [], ◌∷◌};
ghost use Rattle.steps.specs.SetUp.{SetUp};
ghost use Rattle.by_reference.specs.Lists.{bodies_of};
ghost use Rattle.by_reference.specs.Records.{charged};

use crate::lists::set_up;
use crate::records::{Charged, charge};
use record::{Attributes, Record};
use rules::Media;
use table::MAX_SETS;

// A copy is lent.
pub fn charge_lent(r: Record, m: Media) -> Charged
    ensures { result ≡ charged m r }
{
    let mut copy = r;
    let status = charge(&mut copy, m);
    Charged {
        record: copy,
        status,
    }
}

pub fn set_up_three(table: &mut [u64], a: Attributes, b: Attributes, c: Attributes) -> u16
    ensures { SetUp (bodies_of (a ∷ b ∷ c ∷ [])) table.old table.new result }
{
    let list = [a, b, c];
    set_up(table, &list)
}

// The longest list that can be set up.
pub fn set_up_full(table: &mut [u64], list: [Attributes; MAX_SETS]) -> u16
    ensures { SetUp (bodies_of list) table.old table.new result }
{
    set_up(table, &list)
}
