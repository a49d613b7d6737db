// The receiver's state as lent octets: what stands where, how any octets are read, and each change that an event makes (docs/STATE.md has the layout).
#![tactic(auto)]

use receiver::channels::CHANNELS;
use receiver::{MOST_ENTRIES, PLACES, Setup};

pub mod answer;
mod looking;
mod octets;
pub mod parts;
pub mod places;
pub mod records;
pub mod setup;
pub mod sweep;

// What stands where, in the order of the octets.
const TICK: usize = 0;

// One timer of four octets for each channel.
const TIMERS: usize = TICK + 4;

const CELL: usize = TIMERS + 4 * CHANNELS;

// What is known of the cell has three octets, the number of keys one.
const COUNT: usize = CELL + 3;

// Cell, count and mark have eight octets, so that the kinds begin at a multiple of eight.
const MARK: usize = COUNT + 1;

const KEYS_FROM: usize = MARK + 4;

const SETS: usize = KEYS_FROM + 4 * Setup::KEYS;

// One octet for each place, and some that no place uses, so that they can be tested eight at a time.
const KINDS: usize = SETS + 4 * Setup::KEYS;

const SINCES: usize = KINDS + (PLACES + 7) / 8 * 8;

const RECORDS: usize = SINCES + 4 * PLACES;

// The octets of a record.
pub const RECORD_LENGTH: usize = 56;

// Expiries, drops and the number of entries; then who is paged; then the entries.
const ANSWER: usize = RECORDS + RECORD_LENGTH * PLACES;

const PAGED: usize = ANSWER + 16;

const TOLDS: usize = PAGED + 16;

const TOLD_LENGTH: usize = 16 + RECORD_LENGTH;

// A layout of other octets has another number.
const LAYOUT_NUMBER: u32 = 4;

// The letters AHK and the layout's number, as a number.
const MARKED: u32 = 65 + 256 * (72 + 256 * (75 + 256 * LAYOUT_NUMBER));

// The octets of a state. Another length is refusal 13.
pub const LENGTH: usize = TOLDS + TOLD_LENGTH * MOST_ENTRIES;
