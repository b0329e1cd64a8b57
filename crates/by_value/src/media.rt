// Media events and ticks on one record.
ghost use Rattle.std.specs.Prelude.{◌≡◌};
ghost use Rattle.record.specs.Event.{settled};
ghost use Rattle.rules.specs.Rules.{media_rule};
ghost use Rattle.by_value.specs.Ticks.{tick_one};

use record::Record;
use record::event::settle;
use rules::{Media, media_event, tick_event};

// The record after an event.
pub fn after_event(r: Record, m: Media) -> Record
    ensures { result ≡ settled r (media_rule m r.attributes r.state) }
{
    settle(r, media_event(r.attributes, r.state, m))
}

// The same of a tick.
pub fn after_tick(r: Record, t: u32) -> Record
    ensures { result ≡ tick_one t r }
{
    settle(r, tick_event(r.attributes, r.state, t))
}
