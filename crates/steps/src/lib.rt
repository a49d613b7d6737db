// The receiver by value: one event, from a receiver to its answer and the receiver then.
#![tactic(auto)]

pub mod entries;
pub mod events;
pub mod meeting;
pub mod sweep;
