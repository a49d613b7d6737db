// The receiver: halves of segmented notifications kept over time, and what each notified call is told.
#![tactic(auto)]

use call::Call;
use csn1::Refusal;

pub mod channels;
pub mod count;
pub mod events;
pub mod finding;
pub mod meeting;
pub mod messages;
pub mod start;
pub mod store;

// The parts that a message has once for all of its calls.
// Stays: a flag beside each value, here and in Record, Slot and Paged: the state's octets hold both (docs/STATE.md), and what is read of them keeps both.
#[derive(Clone, Copy)]
pub struct Common {
    pub hasCount: bool,
    // CELL_GLOBAL_COUNT, and B22_COUNT where the channel has it.
    pub cellcount: u8,
    pub b22: bool,
    pub hasUplink: bool,
    // Priority Uplink Access.
    pub uplink: bool,
    pub hasAmr: bool,
    pub hasFullrate: bool,
    pub fullrate: u8,
    pub hasHalfrate: bool,
    pub halfrate: u8,
    pub hasSms: bool,
    pub confidential: bool,
    pub private: bool,
}

// An entry of a message with all that belongs to it: what a control room is told of a complete call.
#[derive(Clone, Copy)]
pub struct Record {
    // A full reference of 36 bits; else a reduced one, whose other fields are zero.
    pub full: bool,
    pub call: Call,
    pub hasSegment: bool,
    // Segment Id.
    pub segment: bool,
    pub hasRandom: bool,
    // VSTK_RAND.
    pub rand: u64,
    pub emergency: bool,
    pub common: Common,
}

// A place for a half: which half it holds (0 none, 1 the first, 2 the second), since which tick, and its record.
#[derive(Clone, Copy)]
pub struct Slot {
    pub half: u8,
    pub since: u32,
    pub record: Record,
}

// An NLN has two bits: this says that none is known.
// Stays: a number for none, here, in NO_COUNT, NO_BIT and NO_KEY: the state's octets hold these numbers (docs/STATE.md), and cell_with, cell_by and key_places speak of them.
pub const NO_NLN: u8 = 4;

// CELL_GLOBAL_COUNT has two bits: this, and any number above, says that none is kept.
pub const NO_COUNT: u8 = 4;

// The same of bit 22 of COUNT.
pub const NO_BIT: u8 = 2;

// What is known of the cell.
#[derive(Clone, Copy)]
pub struct Cell {
    // The last NLN seen, or NO_NLN.
    pub nln: u8,
    // The kept CELL_GLOBAL_COUNT, or NO_COUNT.
    pub count: u8,
    // The present value of bit 22 of COUNT, or NO_BIT.
    pub bit: u8,
}

// The highest key: reference 99,999,999 times 2, plus the service flag.
pub const LAST_KEY: u32 = pch::LAST_KEY as u32;

// What an unused key place holds: no key.
pub const NO_KEY: u32 = 4294967295;

pub const PLACES: usize = channels::CHANNELS * Setup::KEYS;

// The place of subscription i on channel ch is channels::CHANNELS * i + ch.
#[derive(Clone, Copy)]
pub struct Receiver {
    pub slots: [Slot; PLACES],
    pub keys: [u32; Setup::KEYS],
    // The group keys held for each key: bit n for key number n, 1 to 15.
    pub sets: [u32; Setup::KEYS],
    // How many of the key places are used: the first so many, or all.
    pub keycount: usize,
    pub tick: u32,
    pub t3206: u32,
    pub t3208: u32,
    pub t3210: u32,
    pub cell: Cell,
}

// What an entry is told: document 01's number, and for 1 to 3 the record.
// Stays: numbers for what is told and whether it can be followed, here and in Met: C and the state's octets have them, and meet_of, follow_of and the theorems of isolation name them.
#[derive(Clone, Copy)]
pub struct Told {
    // Reference times 2 plus service flag.
    pub key: u64,
    pub number: u8,
    pub record: Record,
    // Beside 2 and 3: 1 no key, 2 no count, 3 follow, with the kept count.
    pub follow: u8,
    pub kept: u8,
}

// Who was paged, by a message of the FACCH: all zero where nobody was.
#[derive(Drop)]
pub struct Paged {
    pub there: bool,
    pub page: facch::Page,
    // Whether Release 7 said a Paging Cause; without one a mobile terminating call is assumed.
    pub hasCause: bool,
    // Paging Cause: a short message where true.
    pub cause: bool,
}

// A message has at most this many entries: four calls and five reduced references.
pub const MOST_ENTRIES: usize = 9;

// Stays: a refusal beside the rest: step_of and the theorems of isolation speak of the counts, the entries and the receiver of every answer, refused or not.
// What an event is answered. A refusal is its number and its bit alone, and the receiver as it stood.
#[derive(Drop)]
pub struct Answer {
    pub refusal: Refusal,
    pub expired: usize,
    pub dropped: usize,
    pub count: usize,
    pub entries: [Told; MOST_ENTRIES],
    pub paged: Paged,
    pub receiver: Receiver,
}

// What a setup comes to, where it is refused: its number, and a receiver that has no key, at tick 0 and with timers 0.
// Stays: a refusal beside the receiver: started_of, and the theorems over it, speak of both, and who was promised the receiver of a refused setup has it.
#[derive(Drop)]
pub struct Started {
    pub refusal: Refusal,
    pub receiver: Receiver,
}

// What an event drops beside what ran out: the halves of some channels, save those under the key at an index. No key has the index KEYS.
// Stays: KEYS for no key in but: rule_for and spares, and through them isolation's theorems, have the index as a number.
#[derive(Clone, Copy)]
pub struct Rule {
    pub nch: bool,
    pub facch: bool,
    pub pch: bool,
    pub but: usize,
}

// What moves the mobile: another cell was selected, it was handed over to another cell, the group call was reconfigured, or it left idle mode.
#[derive(Clone, Copy)]
pub enum Move {
    Reselection,
    Handover,
    Reconfiguration,
    LeftIdle,
}

// What an entry met: the number told, the record for 1 to 3, and what its place holds then.
#[derive(Drop)]
pub struct Met {
    pub number: u8,
    pub told: Record,
    pub held: Slot,
}

// The numbers of a setup, beside its keys and their sets of group keys.
#[derive(Clone, Copy)]
pub struct Setup {
    pub tick: u32,
    pub t3206: u32,
    pub t3208: u32,
    pub t3210: u32,
}
