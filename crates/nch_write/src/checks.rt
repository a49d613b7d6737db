// What the writer refuses, one test for each number of document 01's table, over the whole record.
ghost use Rattle.std.specs.Prelude.{◌≡◌, not, take};
ghost use Rattle.call.specs.Write.{call_in_range, call_is_zero, call_is_low, call_length_right, call_hops_right};
ghost use Rattle.nch.specs.Write.{places_right, all, reduced_in_range, reduced_is_zero, reduced_is_low, random_in_range, random_is_zero, any_mark, release6_in_range, flags_in_range, release7_in_range, in_range, record_refusal};

use crate::calls;
use call::Call;
use csn1::writer;
use nch::{Notification, Random, Reduced, Release6, Release7, places};

fn calls_in_range(calls: [Call; places::MOST_CALLS], n: usize) -> bool
    ensures { result ≡ places_right call_in_range call_is_zero n calls }
{
    let mut i: usize = 0;
    while i < places::MOST_CALLS {
        let c = calls[i];
        if i < n {
            if !call::writer::in_range(c) {
                return false;
            }
        } else {
            if !call::writer::is_zero(c) {
                return false;
            }
        }
        i += 1;
    }
    true
}

fn reduced_is_zero(c: Reduced) -> bool
    ensures { result ≡ reduced_is_zero c }
{
    if c.reference != 0 {
        return false;
    }
    !c.vgcs
}

fn reduceds_in_range(items: [Reduced; places::MOST_REDUCEDS], n: usize) -> bool
    ensures { result ≡ places_right reduced_in_range reduced_is_zero n items }
{
    let mut i: usize = 0;
    while i < places::MOST_REDUCEDS {
        let c = items[i];
        if i < n {
            if 134217727 < c.reference {
                return false;
            }
        } else {
            if !reduced_is_zero(c) {
                return false;
            }
        }
        i += 1;
    }
    true
}

fn random_is_zero(c: Random) -> bool
    ensures { result ≡ random_is_zero c }
{
    if c.segment {
        return false;
    }
    if c.hasRandom {
        return false;
    }
    c.rand == 0
}

fn randoms_in_range(items: [Random; places::MOST_RANDOMS], n: usize) -> bool
    ensures { result ≡ places_right random_in_range random_is_zero n items }
{
    let mut i: usize = 0;
    while i < places::MOST_RANDOMS {
        let c = items[i];
        if i < n {
            if !writer::flagged_right(c.hasRandom, c.rand, 68719476736) {
                return false;
            }
        } else {
            if !random_is_zero(c) {
                return false;
            }
        }
        i += 1;
    }
    true
}

fn marks_in_range(marks: [bool; places::MOST_MARKS], n: usize) -> bool
    ensures { result ≡ places_right any_mark not n marks }
{
    let mut i: usize = 0;
    while i < places::MOST_MARKS {
        let m = marks[i];
        if n <= i {
            if m {
                return false;
            }
        }
        i += 1;
    }
    true
}

fn release6_in_range(r: Release6) -> bool
    ensures { result ≡ release6_in_range r }
{
    if places::MOST_REDUCEDS < r.reducedcount {
        return false;
    }
    if places::MOST_RANDOMS < r.randomcount {
        return false;
    }
    if !r.hasRelease {
        if r.hasCount {
            return false;
        }
        if r.reducedcount != 0 {
            return false;
        }
        if r.randomcount != 0 {
            return false;
        }
    }
    if !writer::flagged_right(r.hasCount, r.cellcount as u64, 4) {
        return false;
    }
    let reduced = r.reduced;
    if !reduceds_in_range(reduced, r.reducedcount) {
        return false;
    }
    let randoms = r.randoms;
    randoms_in_range(randoms, r.randomcount)
}

// The parts of Release 7 that are bits and numbers behind flags.
fn flags_in_range(r: Release7) -> bool
    ensures { result ≡ flags_in_range r }
{
    if !writer::bit_right(r.hasUplink, r.uplink) {
        return false;
    }
    if !writer::bit_right(r.hasAmr, r.hasFullrate) {
        return false;
    }
    if !writer::bit_right(r.hasAmr, r.hasHalfrate) {
        return false;
    }
    if !writer::flagged_right(r.hasFullrate, r.fullrate as u64, 16) {
        return false;
    }
    if !writer::flagged_right(r.hasHalfrate, r.halfrate as u64, 16) {
        return false;
    }
    if !writer::bit_right(r.hasSms, r.confidential) {
        return false;
    }
    writer::bit_right(r.hasSms, r.private)
}

fn release7_in_range(r: Release7) -> bool
    ensures { result ≡ release7_in_range r }
{
    if places::MOST_MARKS < r.markcount {
        return false;
    }
    if !r.hasRelease {
        if r.markcount != 0 {
            return false;
        }
        if r.hasUplink {
            return false;
        }
        if r.hasAmr {
            return false;
        }
        if r.hasSms {
            return false;
        }
    }
    let marks = r.marks;
    if !marks_in_range(marks, r.markcount) {
        return false;
    }
    flags_in_range(r)
}

// Refusal 12 is not due.
pub fn in_range(m: Notification) -> bool
    ensures { result ≡ in_range m }
{
    if places::MOST_CALLS < m.callcount {
        return false;
    }
    if !writer::flagged_right(m.hasNln, m.nln as u64, 4) {
        return false;
    }
    let calls = m.calls;
    if !calls_in_range(calls, m.callcount) {
        return false;
    }
    let six = m.release6;
    if !release6_in_range(six) {
        return false;
    }
    let seven = m.release7;
    release7_in_range(seven)
}

// What three refusals ask of all calls in use.
#[derive(Drop)]
struct Tested {
    low: bool,
    lengths: bool,
    hops: bool,
}

fn calls_tested(calls: [Call; places::MOST_CALLS], n: usize) -> Tested
    ensures { (result.low ≡ all call_is_low (take n calls)) × ((result.lengths ≡ all call_length_right (take n calls)) × (result.hops ≡ all call_hops_right (take n calls))) }
{
    let mut low = true;
    let mut lengths = true;
    let mut hops = true;
    let mut i: usize = 0;
    while i < places::MOST_CALLS {
        let c = calls[i];
        if i < n {
            low = writer::both_hold(low, call::writer::is_low(c));
            lengths = writer::both_hold(lengths, call::writer::length_right(c));
            hops = writer::both_hold(hops, call::writer::hops_right(c));
        }
        i += 1;
    }
    Tested { low, lengths, hops }
}

fn reduceds_low(items: [Reduced; places::MOST_REDUCEDS], n: usize) -> bool
    ensures { result ≡ all reduced_is_low (take n items) }
{
    let mut i: usize = 0;
    while i < places::MOST_REDUCEDS {
        let c = items[i];
        if i < n {
            if 99999999 < c.reference {
                return false;
            }
        }
        i += 1;
    }
    true
}

// The number of the first refusal that is due before the written form is looked at: 12, 4, 3, 5, 6, 7, or 0 where none is.
pub fn refusal(m: Notification) -> u8
    ensures { result ≡ record_refusal m }
{
    if !in_range(m) {
        return 12;
    }
    let cs = m.calls;
    let six = m.release6;
    let reduced = six.reduced;
    let t = calls_tested(cs, m.callcount);
    if !t.low {
        return 4;
    }
    if !reduceds_low(reduced, six.reducedcount) {
        return 4;
    }
    if !t.lengths {
        return 3;
    }
    if !t.hops {
        return 5;
    }
    let k = calls::counted(cs, m.callcount);
    if k.ciphered + six.reducedcount < six.randomcount {
        return 6;
    }
    if k.described < m.release7.markcount {
        return 7;
    }
    0
}
