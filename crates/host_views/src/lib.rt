// The C library, third part: what only looks at a lent state. An archive of its own, so that the events keep the reading of a half inside them.
#![tactic(auto)]

pub mod state;
