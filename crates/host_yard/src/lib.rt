// The C library: the yard set on a lent state of its own, as include/asternhaken.h declares it, each function a thin one over yard. An archive of its own, so that the receiver's events stay as they are.
#![tactic(auto)]

pub mod state;
