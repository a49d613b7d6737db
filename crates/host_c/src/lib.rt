// The C library: the receiver and the lookup of a key, as C calls it. A crate is a library or a static library and not both, so each export calls the function of host of the same name, and states the same.

#![tactic(auto)]

mod finding;
mod state;
