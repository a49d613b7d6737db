// The C library: the receiver on a lent state and the lookup of a key, as include/asternhaken.h declares them, each function a thin one over the crate that does the work.
#![tactic(auto)]

pub mod finding;
pub mod state;
