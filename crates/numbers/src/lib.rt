// The codecs on arrays of numbers, in the order that include/asternhaken.h gives, for test rigs.
#![tactic(auto)]

mod limits;
pub mod on_facch;
pub mod on_nch;
mod places;
