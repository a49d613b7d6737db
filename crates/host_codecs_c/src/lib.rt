// The C library: the codecs on arrays of numbers, as C calls it. A crate is a library or a static library and not both, so each export calls the function of host_codecs of the same name, and states the same.

#![tactic(auto)]

mod elements;
mod notifications;
