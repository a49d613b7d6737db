// The C library, second part: the codecs on arrays of numbers. An archive of its own, so that the events keep the readers inside them.
#![tactic(auto)]

pub mod elements;
pub mod notifications;
