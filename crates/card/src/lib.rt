// The card on a lent table, of words or of their bytes: set-up, media events, ticks and commands.
#![tactic(auto)]

pub mod commanded;
pub mod media;
pub mod set_up;
mod views;
