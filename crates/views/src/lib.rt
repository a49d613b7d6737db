// What a host sees of a lent state in one call: an entry of the answer, who is paged, the halves held, when the next one runs out.
#![tactic(auto)]

mod all;
pub mod entries;
pub mod held;
pub mod pages;
