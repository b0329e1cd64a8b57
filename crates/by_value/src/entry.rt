// The refusal of an item that names a set, by why there is no slot for its identifier.
ghost use Rattle.std.specs.Prelude.{◌≡◌, Err};
ghost use Rattle.replies.specs.Numbers.{number};
ghost use Rattle.steps.specs.Words.{entry_no};

use record::Slot;
use replies::Refusal;
use replies::numbers::SUCCESS;
use table::Absent;

// `unknown`: the item's own refusal of a set that is not there.
pub fn refusal_of(absent: Absent, unknown: Refusal) -> Refusal
    ensures { number result ≡ entry_no (number unknown) (Err absent) }
{
    match absent {
        Absent::BadTable => Refusal::BadTable,
        Absent::NoSet => unknown,
    }
}

// The same as a status number, of any way in and with any number for a set that is not there, for who has no refusal of its own.
pub fn entry_no(unknown: u16, entry: Result<Slot, Absent>) -> u16
    ensures { result ≡ entry_no unknown entry }
{
    match entry {
        Err(Absent::BadTable) => u16::from(Refusal::BadTable),
        Err(Absent::NoSet) => unknown,
        Ok(_) => SUCCESS,
    }
}
