// What stands on bytes: set-up bodies, the data of feature 13h, log pages 0Ah and 0Bh, and Identify.
#![tactic(auto)]

pub mod aggregate;
pub mod bodies;
mod capacities;
pub mod features;
pub mod identify;
pub mod latency;
