// The data of feature 13h: what Set Features brings and Get Features hands back.
ghost use Rattle.std.specs.Prelude.{◌≡◌, ◌≤◌, length};
ghost use Rattle.std.proofs.lemmas.List.Edits.{sets};
ghost use Rattle.pages.specs.Features.{feature_size, config_page, config_in};

use octets::{Place, clear, fill};
use record::parts::config_of;
use record::{Config, Events};

pub const FEATURE_SIZE: usize = 512;

const ENABLED: Place = Place { at: 0, width: 2 };

const READS: Place = Place { at: 32, width: 8 };

const WRITES: Place = Place { at: 40, width: 8 };

const TIME: Place = Place { at: 48, width: 8 };

const PLACES: [Place; 4] = [ENABLED, READS, WRITES, TIME];

// The page, made on the first bytes of an answer.
pub fn config_onto(c: Config, answer: &mut [u8])
    requires { feature_size ≤ length answer.old }
    ensures { answer.new ≡ sets answer.old 0 (config_page c) }
{
    let t = c.thresholds;
    clear(answer, FEATURE_SIZE);
    fill(
        answer,
        0,
        &PLACES,
        &[u64::from(c.enabled), t.reads, t.writes, t.time],
    );
}

pub fn config_in(bytes: &[u8]) -> Config
    requires { feature_size ≤ length bytes.now }
    ensures { result ≡ config_in bytes.now }
{
    let enabled = Events::from_bits_truncate(u64::from(ENABLED.short(bytes, 0)));
    let reads = READS.word(bytes, 0);
    let writes = WRITES.word(bytes, 0);
    let time = TIME.word(bytes, 0);
    config_of(enabled, reads, writes, time)
}
