// Captures: a day's events as a run of fields, taken octet by octet in constant memory, each field answered by a receiver in lent octets.
#![tactic(auto)]

use receiver::Setup;

mod answers;
mod fields;
mod lines;
pub mod mending;
pub mod replaying;

// The tag has one octet, the length two.
const HEAD: usize = 3;

// A setup's tick and timers.
const TIMES: usize = 8;

// The octets that are kept of a field: a setup of the most keys, and one octet more, so that a longer field is seen to be none.
pub const KEPT: usize = HEAD + TIMES + 4 * Setup::KEYS + 1;

// Where a run stands: no setup came yet, the receiver is in the lent state, or the run has ended.
#[derive(Clone, Copy)]
pub enum Phase {
    Before,
    Running,
    Over,
}

// What is held between two octets of a capture, beside the octets kept of the present field and the lent state.
#[derive(Clone, Copy)]
pub struct Replay {
    // The number of the present field, counted from 1.
    pub number: u64,
    pub phase: Phase,
    // How many octets of the present field came.
    pub got: usize,
}

// What became of a piece: what is held then, how many of its octets were taken, and the place behind the text.
#[derive(Drop)]
pub struct Fed {
    pub replay: Replay,
    pub taken: usize,
    pub at: usize,
}

// What is held between two octets of a capture that is mended: the same, and the offset of the present field's tag.
#[derive(Clone, Copy)]
pub struct Mend {
    pub replay: Replay,
    pub offset: u64,
}

// What became of a piece: what is held then, how many of its octets were taken, and the places behind what is copied and listed.
#[derive(Drop)]
pub struct Mended {
    pub mend: Mend,
    pub taken: usize,
    pub copied: usize,
    pub listed: usize,
}
