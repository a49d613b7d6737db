// The yard set: a receiver for shunters that only listens, and the calls that it shows, in place on lent octets (docs/STATE.md has the layout).
#![tactic(auto)]

pub mod events;
mod octets;
mod settling;
pub mod setup;
pub mod showing;

use receiver::MOST_ENTRIES;

// What an entry of an answer has, and where the entries stand: at the end of the receiver's state.
const TOLD_LENGTH: usize = 72;

const TOLDS: usize = layout::LENGTH - TOLD_LENGTH * MOST_ENTRIES;

// The most keys, and a place for a call of each.
pub const CALLS: usize = 8;

// The tick of its last complete record, four octets that are not used, and what it was told.
const CALL_LENGTH: usize = 8 + TOLD_LENGTH;

// The octets of a yard set: the receiver's state, then the calls. Another length is refusal 13.
pub const LENGTH: usize = layout::LENGTH + CALL_LENGTH * CALLS;
