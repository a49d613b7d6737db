// Arrays of numbers: filled from a place on, read field by field, and held to the largest numbers that their fields take.
#![tactic(auto)]

pub mod fields;
pub mod fill;
pub mod limits;
