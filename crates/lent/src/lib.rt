// The receiver's events in place, on lent octets.
#![tactic(auto)]

mod entries;
pub mod events;
mod tell;
