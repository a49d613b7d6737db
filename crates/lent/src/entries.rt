// The entries of an NCH message, each from the array of numbers that the reader filled.
ghost use Rattle.std.specs.Prelude.{◌≡◌, false, ◌<◌, ◌≤◌};
ghost use Rattle.std.proofs.Math.Option.{none};
ghost use Rattle.bits.specs.Field.{pick};
ghost use Rattle.call.specs.Call.{ciphered};
ghost use Rattle.nch.specs.Write.{is_described};
ghost use Rattle.nch.specs.Owners.{nth, or_not, randoms_of, marks_of};
ghost use Rattle.nch.specs.Places.{most_randoms, most_marks};
ghost use Rattle.nch.specs.CallNumbers.{call_from_of};
ghost use Rattle.nch.specs.Inner.{CallFits, reduced_from, ReducedFits};
ghost use Rattle.nch.specs.NotificationNumbers.{record_from, Fits};
ghost use Rattle.receiver.specs.Entries.{nch_common, owned_of, reduced_call, call_with, reduced_with};
ghost use Rattle.lent.specs.Inner.{entry_from, last_call, last_reduced, EntryFits};

use call::Call;
use nch::places;
use receiver::messages::Owned;
use receiver::{Common, Record, messages};

fn common_from(m: &[u64]) -> Common
    requires { Fits m.now }
    ensures { result ≡ nch_common (record_from m.now) }
{
    Common {
        hasCount: m[places::COUNTED] == 1,
        cellcount: m[places::CELLCOUNT] as u8,
        b22: false,
        hasUplink: m[places::UPLINKED] == 1,
        uplink: m[places::UPLINK] == 1,
        hasAmr: m[places::AMR] == 1,
        hasFullrate: m[places::FULLRATED] == 1,
        fullrate: m[places::FULLRATE] as u8,
        hasHalfrate: m[places::HALFRATED] == 1,
        halfrate: m[places::HALFRATE] as u8,
        hasSms: m[places::SMS] == 1,
        confidential: m[places::CONFIDENTIAL] == 1,
        private: m[places::PRIVATE] == 1,
    }
}

// The k-th random entry in use, counted from 0.
fn random_at(m: &[u64], k: usize) -> Owned
    requires { Fits m.now × (k < most_randoms) }
    ensures { result ≡ owned_of (nth k (randoms_of (record_from m.now))) }
{
    if m[places::RANDOMS] as usize <= k {
        return messages::owns_none();
    }
    let at = places::FIRST_RANDOM + places::RANDOM_LENGTH * k;
    Owned {
        hasSegment: true,
        segment: m[at] == 1,
        hasRandom: m[at + 1] == 1,
        rand: m[at + 2],
    }
}

// Only a ciphered call owns a random entry.
fn random_of_call(m: &[u64], at: usize, k: usize) -> Owned
    requires { Fits m.now × ((k < most_randoms) × (at ≤ last_call)) }
    ensures { result ≡ owned_of (pick (ciphered (call_from_of m.now at)) (nth k (randoms_of (record_from m.now))) none) }
{
    if m[at + 4] < 1 {
        return messages::owns_none();
    }
    random_at(m, k)
}

// Only a call with a description owns an emergency mark: the k-th in use, and without one it is in no emergency.
fn emergency_of_call(m: &[u64], at: usize, k: usize) -> bool
    requires { Fits m.now × ((k < most_marks) × (at ≤ last_call)) }
    ensures { result ≡ pick (is_described (call_from_of m.now at)) (or_not (nth k (marks_of (record_from m.now)))) false }
{
    if m[at + 5] != 1 {
        return false;
    }
    if m[places::MARKS] as usize <= k {
        return false;
    }
    m[places::FIRST_MARK + k] == 1
}

// The entry of the call whose numbers stand at a place, with the random entry and the mark at these places where it owns one.
fn call_entry(m: &[u64], at: usize, random: usize, mark: usize) -> Record
    requires { Fits m.now × (CallFits m.now at × ((at ≤ last_call) × ((random < most_randoms) × (mark < most_marks)))) }
    ensures { result ≡ call_with (record_from m.now) random mark (call_from_of m.now at) }
{
    let o = random_of_call(m, at, random);
    Record {
        full: true,
        call: nch::numbers::call_at(m, at as u8),
        hasSegment: o.hasSegment,
        segment: o.segment,
        hasRandom: o.hasRandom,
        rand: o.rand,
        emergency: emergency_of_call(m, at, mark),
        common: common_from(m),
    }
}

// What a reduced reference says of its call.
fn reduced_call(m: &[u64], at: usize) -> Call
    requires { ReducedFits m.now at × (at ≤ last_reduced) }
    ensures { result ≡ reduced_call (reduced_from m.now at) }
{
    let mut c = call::no_call();
    c.reference = m[at] as u32;
    c.vgcs = m[at + 1] == 1;
    c
}

// The entry of the reduced reference whose numbers stand at a place. It has no mark.
fn reduced_entry(m: &[u64], at: usize, random: usize) -> Record
    requires { Fits m.now × (ReducedFits m.now at × ((at ≤ last_reduced) × (random < most_randoms))) }
    ensures { result ≡ reduced_with (record_from m.now) random (reduced_from m.now at) }
{
    let o = random_at(m, random);
    Record {
        full: false,
        call: reduced_call(m, at),
        hasSegment: o.hasSegment,
        segment: o.segment,
        hasRandom: o.hasRandom,
        rand: o.rand,
        emergency: false,
        common: common_from(m),
    }
}

// The entry whose numbers stand at a place.
pub(crate) fn entry_at(m: &[u64], full: bool, at: usize, random: usize, mark: usize) -> Record
    requires { Fits m.now × ((random < most_randoms) × EntryFits m.now full at mark) }
    ensures { result ≡ entry_from m.now full at random mark }
{
    if full {
        return call_entry(m, at, random, mark);
    }
    reduced_entry(m, at, random)
}
