// NT/N Rest Octets (44.018, 10.5.2.22c): the 20 octets of the notification channel, read and written.
#![tactic(auto)]

ghost use Rattle.std.specs.Prelude.{◌≡◌};
ghost use Rattle.nch.specs.Told.{read_of};

use call::Call;
use csn1::Refusal;

mod additions;
mod lists;
pub mod numbers;
pub mod places;
pub mod reader;

// A Reduced GCR: the reference and service flag of a call that another message carries whole.
#[derive(Clone, Copy)]
pub struct Reduced {
    pub reference: u32,
    pub vgcs: bool,
}

// An entry of the List of VSTK_RAND information.
#[derive(Clone, Copy)]
pub struct Random {
    // Segment Id: the second segment where true.
    pub segment: bool,
    pub hasRandom: bool,
    // VSTK_RAND, 36 bits.
    pub rand: u64,
}

// What Release 6 added.
#[derive(Clone, Copy)]
pub struct Release6 {
    pub hasRelease: bool,
    pub hasCount: bool,
    // CELL_GLOBAL_COUNT.
    pub cellcount: u8,
    pub reducedcount: usize,
    pub reduced: [Reduced; places::MOST_REDUCEDS],
    pub randomcount: usize,
    pub randoms: [Random; places::MOST_RANDOMS],
}

// What Release 7 added.
#[derive(Clone, Copy)]
pub struct Release7 {
    pub hasRelease: bool,
    pub markcount: usize,
    // Emergency_Ind.
    pub marks: [bool; places::MOST_MARKS],
    pub hasUplink: bool,
    // Priority Uplink Access: on the group channel where true.
    pub uplink: bool,
    pub hasAmr: bool,
    pub hasFullrate: bool,
    // FR AMR Config.
    pub fullrate: u8,
    pub hasHalfrate: bool,
    // HR AMR Config.
    pub halfrate: u8,
    pub hasSms: bool,
    // SMS Data Confidentiality Ind.
    pub confidential: bool,
    // SMS Guaranteed Privacy Ind.
    pub private: bool,
}

// The record of a notification. What is absent, and every unused place, is zero.
#[derive(Clone, Copy)]
pub struct Notification {
    pub hasNln: bool,
    pub nln: u8,
    pub callcount: usize,
    pub calls: [Call; places::MOST_CALLS],
    pub release6: Release6,
    pub release7: Release7,
}

// What reading gives: the record and the number of bits used, or why not, and then both are zero.
#[derive(Drop)]
pub struct Reading {
    pub refusal: Refusal,
    pub used: usize,
    pub record: Notification,
}

// Reads any octets: into an array of numbers, of which the record is then made. A refused reading leaves zeros there, whose record is all zero.
pub fn read(octets: &[u8]) -> Reading
    ensures { result ≡ read_of octets.now }
{
    let mut all = [0u64; places::LENGTH];
    let refusal = reader::read_into(octets, &mut all);
    Reading {
        refusal,
        used: all[places::USED] as usize,
        record: numbers::record_from(&all),
    }
}
