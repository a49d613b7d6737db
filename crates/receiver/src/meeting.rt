// What an entry is, whether two halves agree, and what they make joined.
ghost use Rattle.std.specs.Prelude.{◌≡◌};
ghost use Rattle.receiver.specs.Model.{no_common, no_record, empty_slot, key_of, is_ciphered, segment_is, is_second, class_of, same_reference, agree, with_count, joined_of};

use crate::{Common, Record, Slot, channels};
use call::Call;

pub fn no_common() -> Common
    ensures { result ≡ no_common }
{
    Common {
        hasCount: false,
        cellcount: 0,
        b22: false,
        hasUplink: false,
        uplink: false,
        hasAmr: false,
        hasFullrate: false,
        fullrate: 0,
        hasHalfrate: false,
        halfrate: 0,
        hasSms: false,
        confidential: false,
        private: false,
    }
}

pub fn no_record() -> Record
    ensures { result ≡ no_record }
{
    Record {
        full: false,
        call: call::no_call(),
        hasSegment: false,
        segment: false,
        hasRandom: false,
        rand: 0,
        emergency: false,
        common: no_common(),
    }
}

// A place that holds nothing.
pub fn empty_slot() -> Slot
    ensures { result ≡ empty_slot }
{
    Slot {
        half: 0,
        since: 0,
        record: no_record(),
    }
}

// Reduced references all count as ciphered.
fn is_ciphered(e: Record) -> bool
    ensures { result ≡ is_ciphered e }
{
    !e.full || 1 <= e.call.cipher
}

// Segment Id as it must be where the channel has it.
fn segment_is(ch: usize, b: bool, e: Record) -> bool
    ensures { result ≡ segment_is ch b e }
{
    !channels::asks(ch) || (e.hasSegment && e.segment == b)
}

// A second half: ciphered, not described, with VSTK_RAND, and Segment Id 1 where the channel has it.
fn is_second(ch: usize, e: Record) -> bool
    ensures { result ≡ is_second ch e }
{
    is_ciphered(e) && !e.call.hasDescription && e.hasRandom && segment_is(ch, true, e)
}

// 1 complete and clear, 2 complete in one piece, 3 a first half, 4 a second half, 6 no channel, 7 any other.
// Stays: numbers for classes: class_of has them, and meet_of tells a class that is no half by its number (document 01).
#[tactic(auto, unfolding(crate::specs::Model::class_of))]
pub fn class(ch: usize, e: Record) -> u8
    ensures { result ≡ class_of ch e }
{
    if e.call.hasDescription {
        if !is_ciphered(e) {
            1
        } else if !segment_is(ch, false, e) {
            7
        } else if e.hasRandom {
            2
        } else {
            3
        }
    } else if is_second(ch, e) {
        4
    } else if e.full {
        6
    } else {
        7
    }
}

// All 36 bits are the same.
fn same_reference(a: Call, b: Call) -> bool
    ensures { result ≡ same_reference a b }
{
    a.reference == b.reference
        && a.vgcs == b.vgcs
        && a.acknowledged == b.acknowledged
        && a.priority == b.priority
        && a.cipher == b.cipher
}

// Two full references must agree.
#[tactic(auto, unfolding(crate::specs::Model::agree))]
pub fn agrees(a: Record, b: Record) -> bool
    ensures { result ≡ agree a b }
{
    !a.full || !b.full || same_reference(a.call, b.call)
}

// The count, with B22, comes from the second half if there, else from the first.
fn with_count(first: Common, second: Common) -> Common
    ensures { result ≡ with_count first second }
{
    if second.hasCount {
        Common {
            hasCount: true,
            cellcount: second.cellcount,
            b22: second.b22,
            ..first
        }
    } else {
        first
    }
}

// Everything from the first half, VSTK_RAND from the second.
#[tactic(auto, unfolding(crate::specs::Model::joined_of))]
pub fn join(first: Record, second: Record) -> Record
    ensures { result ≡ joined_of first second }
{
    Record {
        hasRandom: true,
        rand: second.rand,
        common: with_count(first.common, second.common),
        ..first
    }
}

// Reference times 2 plus service flag.
pub fn key_of(c: Call) -> u64
    ensures { result ≡ key_of c }
{
    u64::from(c.reference) * 2 + u64::from(c.vgcs)
}
