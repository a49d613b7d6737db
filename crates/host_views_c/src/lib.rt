// The C library: what only looks at a lent state, as C calls it. A crate is a library or a static library and not both, so each export calls the function of host_views of the same name, and states the same.

#![tactic(auto)]

mod state;
