// The entries of a message in order, as an array, each with all that belongs to it.
ghost use Rattle.std.specs.Prelude.{◌≡◌, false, [], length};
ghost use Rattle.std.proofs.Math.Option.{none};
ghost use Rattle.bits.specs.Field.{pick};
ghost use Rattle.csn1.specs.Told.{padded};
ghost use Rattle.call.specs.Call.{ciphered};
ghost use Rattle.nch.specs.Octets.{count};
ghost use Rattle.nch.specs.Write.{calls_of, is_described};
ghost use Rattle.nch.specs.Owners.{nth, or_not, randoms_of, marks_of};
ghost use Rattle.receiver.specs.Model.{no_record, map_at};
ghost use Rattle.receiver.specs.Entries.{nch_common, owned_of, call_with, reduced_with, call_entry, nch_entries, facch_entries, pch_entries};
ghost use Rattle.receiver.specs.Step.{most_entries};
ghost use Rattle.steps.specs.Entries.{entries_in};

use call::Call;
use nch::Reduced;
use receiver::messages::Owned;
use receiver::{Common, MOST_ENTRIES, Record, meeting, messages};

// The entries of a message, in order.
// Stays: an array with a count, here and in CallEntries: no heap.
#[derive(Clone, Copy)]
pub struct Entries {
    pub items: [Record; MOST_ENTRIES],
    pub count: usize,
}

pub fn no_entries() -> Entries
    ensures { result ≡ entries_in [] }
{
    Entries {
        items: [meeting::no_record(); MOST_ENTRIES],
        count: 0,
    }
}

// The entries of a FACCH message: its call, and none where it pages somebody.
#[tactic(auto, unfolding(receiver::specs::Entries::facch_entries))]
pub fn facch_entries(m: facch::Notification) -> Entries
    ensures { result ≡ entries_in (facch_entries m) }
{
    let mut e = no_entries();
    if m.paging {
        return e;
    }
    e.items[0] = messages::facch_entry(m);
    e.count = 1;
    e
}

// The entries of the PCH: one.
#[tactic(auto, unfolding(receiver::specs::Entries::pch_entries))]
pub fn pch_entries(p: pch::Entry) -> Entries
    ensures { result ≡ entries_in (pch_entries p) }
{
    let mut e = no_entries();
    e.items[0] = messages::pch_entry(p);
    e.count = 1;
    e
}

pub fn nch_common(m: nch::Notification) -> Common
    ensures { result ≡ nch_common m }
{
    Common {
        hasCount: m.release6.hasCount,
        cellcount: m.release6.cellcount,
        b22: false,
        hasUplink: m.release7.hasUplink,
        uplink: m.release7.uplink,
        hasAmr: m.release7.hasAmr,
        hasFullrate: m.release7.hasFullrate,
        fullrate: m.release7.fullrate,
        hasHalfrate: m.release7.hasHalfrate,
        halfrate: m.release7.halfrate,
        hasSms: m.release7.hasSms,
        confidential: m.release7.confidential,
        private: m.release7.private,
    }
}

// The k-th random entry in use, counted from 0.
fn random_at(m: nch::Notification, k: usize) -> Owned
    ensures { result ≡ owned_of (nth k (randoms_of m)) }
{
    if m.release6.randomcount <= k {
        return messages::owns_none();
    }
    if 9 <= k {
        return messages::owns_none();
    }
    let six = m.release6;
    let one = six.randoms[k];
    Owned {
        hasSegment: true,
        segment: one.segment,
        hasRandom: one.hasRandom,
        rand: one.rand,
    }
}

// Only a ciphered call owns a random entry.
fn random_of_call(m: nch::Notification, c: Call, k: usize) -> Owned
    ensures { result ≡ owned_of (pick (ciphered c) (nth k (randoms_of m)) none) }
{
    if c.cipher == 0 {
        return messages::owns_none();
    }
    random_at(m, k)
}

// Only a call with a description owns an emergency mark: the k-th in use, and without one it is in no emergency.
fn emergency_of_call(m: nch::Notification, c: Call, k: usize) -> bool
    ensures { result ≡ pick (is_described c) (or_not (nth k (marks_of m))) false }
{
    if c.hasDescription && k < m.release7.markcount && k < 4 {
        m.release7.marks[k]
    } else {
        false
    }
}

// The entry of a call, with the random entry and the mark at these places where it owns one.
#[tactic(auto, unfolding(receiver::specs::Entries::call_with))]
pub fn call_entry(m: nch::Notification, c: Call, random: usize, mark: usize) -> Record
    ensures { result ≡ call_with m random mark c }
{
    let owned = random_of_call(m, c, random);
    Record {
        full: true,
        call: c,
        hasSegment: owned.hasSegment,
        segment: owned.segment,
        hasRandom: owned.hasRandom,
        rand: owned.rand,
        emergency: emergency_of_call(m, c, mark),
        common: nch_common(m),
    }
}

// The entry of a reduced reference, with the random entry at this place. It has no mark.
#[tactic(auto, unfolding(receiver::specs::Entries::reduced_with))]
pub fn reduced_entry(m: nch::Notification, r: Reduced, random: usize) -> Record
    ensures { result ≡ reduced_with m random r }
{
    let owned = random_at(m, random);
    let mut call = call::no_call();
    call.reference = r.reference;
    call.vgcs = r.vgcs;
    Record {
        full: false,
        call,
        hasSegment: owned.hasSegment,
        segment: owned.segment,
        hasRandom: owned.hasRandom,
        rand: owned.rand,
        emergency: false,
        common: nch_common(m),
    }
}

// The entries of the calls, and how many of the calls are ciphered.
#[derive(Drop)]
struct CallEntries {
    items: [Record; MOST_ENTRIES],
    count: usize,
    ciphered: usize,
}

fn call_entries(m: nch::Notification) -> CallEntries
    ensures { (result.items ≡ padded no_record most_entries (map_at (call_entry m) 0 (calls_of m))) × ((result.count ≡ length (calls_of m)) × (result.ciphered ≡ count ciphered (calls_of m))) }
{
    let mut items = [meeting::no_record(); MOST_ENTRIES];
    let count = m.callcount.min(4);
    let mut random: usize = 0;
    let mut mark: usize = 0;
    for (i, call) in m.calls[..count].iter().enumerate() {
        items[i] = call_entry(m, *call, random, mark);
        random += usize::from(1 <= call.cipher);
        mark += usize::from(call.hasDescription);
    }
    CallEntries {
        items,
        count,
        ciphered: random,
    }
}

// The entries of an NCH message: its calls, then its reduced references.
pub fn nch_entries(m: nch::Notification) -> Entries
    ensures { result ≡ entries_in (nch_entries m) }
{
    let calls = call_entries(m);
    let mut items = calls.items;
    let first = calls.count;
    let count = m.release6.reducedcount.min(5);
    for (j, reduced) in m.release6.reduced[..count].iter().enumerate() {
        items[first + j] = reduced_entry(m, *reduced, calls.ciphered + j);
    }
    Entries {
        items,
        count: first + count,
    }
}
