// The parts of a state, each made in one place.
ghost use Rattle.std.specs.Prelude.{◌≡◌};
ghost use Rattle.record.specs.Parts.{config_of, spends, recovers, state_of, effect_of};

use crate::{Config, Effect, Events, Recovery, Spent, State, Thresholds, Window};

impl Spent {
    pub const NONE: Spent = Spent {
        reads: 0,
        writes: 0,
        time: 0,
    };
}

impl Recovery {
    pub const NONE: Recovery = Recovery { time: 0, need: 0 };
}

// ENEV, and the thresholds of reads, of writes and of time.
pub fn config_of(enabled: Events, reads: u64, writes: u64, time: u64) -> Config
    ensures { result ≡ config_of enabled reads writes time }
{
    let thresholds = Thresholds {
        reads,
        writes,
        time,
    };
    Config {
        enabled,
        thresholds,
    }
}

pub fn spent(reads: u32, writes: u32, time: u32) -> Spent
    ensures { result ≡ spends reads writes time }
{
    Spent {
        reads,
        writes,
        time,
    }
}

pub fn recovered(time: u32, need: u32) -> Recovery
    ensures { result ≡ recovers time need }
{
    Recovery { time, need }
}

pub fn state_of(window: Window, config: Config, spent: Spent, recovery: Recovery) -> State
    ensures { result ≡ state_of window config spent recovery }
{
    State {
        window,
        config,
        spent,
        recovery,
    }
}

pub fn effect_of(state: State, happened: Events, clears: bool) -> Effect
    ensures { result ≡ effect_of state happened clears }
{
    Effect {
        state,
        happened,
        clears,
    }
}
