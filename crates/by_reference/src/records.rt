// The media layer charges one lent record in place.
ghost use Rattle.std.specs.Prelude.{◌≡◌, false, MatchResult};
ghost use Rattle.replies.specs.Numbers.{success, number};
ghost use Rattle.record.specs.Legal.{legal_record};
ghost use Rattle.by_reference.specs.Records.{lent_status, lent_after, ChargedInPlace};

use by_value::media::after_event;
use record::Record;
use record::legal::record_legal;
use replies::Refusal;
use replies::numbers::SUCCESS;
use rules::Media;

// A record after an event, and the status as its number: the record is handed on whichever it is, so that a Result would have it twice.
#[derive(Clone, Copy)]
pub struct Charged {
    pub record: Record,
    pub status: u16,
}

// The rule, by value: it refuses a record that is not legal.
fn after(r: Record, m: Media) -> Result<Record, Refusal>
    ensures { MatchResult result (λ x. (lent_status r ≡ success) × (x ≡ lent_after success m r)) (λ e. (lent_status r ≡ number e) × (legal_record r ≡ false)) }
{
    if !record_legal(r) {
        return Err(Refusal::BadTable);
    }
    Ok(after_event(r, m))
}

// The status as its number, by `ChargedInPlace`.
pub fn charge(record: &mut Record, m: Media) -> u16
    ensures { ChargedInPlace m «record».old «record».new result }
{
    match after(*record, m) {
        Ok(r) => {
            *record = r;
            SUCCESS
        }
        Err(refusal) => u16::from(refusal),
    }
}
