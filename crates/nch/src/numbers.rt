// A record from its numbers, and the eleven numbers of a call. Of a number that is too large for its field what is left there is taken.
ghost use Rattle.std.specs.Prelude.{◌≡◌, ◌+◌, ◌*◌, ◌≤◌, ◌<◌};
ghost use Rattle.arrays.specs.Runs.{parts_from};
ghost use Rattle.nch.specs.Places.{first_call, call_length, most_calls, first_reduced, reduced_length, most_reduceds, first_random, random_length, most_randoms};
ghost use Rattle.nch.specs.CallNumbers.{call_numbers, cut, description_by, call_by};
ghost use Rattle.nch.specs.NotificationNumbers.{reduced_by, random_from, release6_by, release7_by, record_by};

use crate::{Notification, Random, Reduced, Release6, Release7, places};
use arrays::fields;
use call::{Call, Description};

pub fn numbers_of(c: Call) -> [u64; places::CALL_LENGTH]
    ensures { result ≡ call_numbers c }
{
    [
        c.reference as u64,
        c.vgcs as u64,
        c.acknowledged as u64,
        c.priority as u64,
        c.cipher as u64,
        c.hasDescription as u64,
        c.description.channel as u64,
        c.description.hopping as u64,
        c.description.shortlist as u64,
        c.description.length as u64,
        c.description.frequencies,
    ]
}

fn description_at(numbers: &[u64], at: usize) -> Description
    requires { at ≤ 4096 }
    ensures { result ≡ description_by cut numbers.now at }
{
    Description {
        channel: fields::word_at(numbers, at),
        hopping: fields::flag_at(numbers, at + 1),
        shortlist: fields::flag_at(numbers, at + 2),
        length: fields::octet_at(numbers, at + 3),
        frequencies: fields::number_at(numbers, at + 4),
    }
}

// The call whose numbers stand from a place on.
pub fn call_at(numbers: &[u64], place: u8) -> Call
    ensures { result ≡ call_by cut numbers.now place }
{
    let at = place as usize;
    Call {
        reference: fields::word_at(numbers, at),
        vgcs: fields::flag_at(numbers, at + 1),
        acknowledged: fields::flag_at(numbers, at + 2),
        priority: fields::octet_at(numbers, at + 3),
        cipher: fields::octet_at(numbers, at + 4),
        hasDescription: fields::flag_at(numbers, at + 5),
        description: description_at(numbers, at + 6),
    }
}

// The k-th call, counted from 0; so with what follows.
fn call_no(numbers: &[u64], k: usize) -> Call
    requires { k < most_calls }
    ensures { result ≡ call_by cut numbers.now (first_call + call_length * k) }
{
    call_at(
        numbers,
        (places::FIRST_CALL + places::CALL_LENGTH * k) as u8,
    )
}

fn reduced_no(numbers: &[u64], k: usize) -> Reduced
    requires { k < most_reduceds }
    ensures { result ≡ reduced_by cut numbers.now (first_reduced + reduced_length * k) }
{
    let at = places::FIRST_REDUCED + places::REDUCED_LENGTH * k;
    Reduced {
        reference: fields::word_at(numbers, at),
        vgcs: fields::flag_at(numbers, at + 1),
    }
}

fn random_no(numbers: &[u64], k: usize) -> Random
    requires { k < most_randoms }
    ensures { result ≡ random_from numbers.now (first_random + random_length * k) }
{
    let at = places::FIRST_RANDOM + places::RANDOM_LENGTH * k;
    Random {
        segment: fields::flag_at(numbers, at),
        hasRandom: fields::flag_at(numbers, at + 1),
        rand: fields::number_at(numbers, at + 2),
    }
}

fn reduceds_from(numbers: &[u64]) -> [Reduced; places::MOST_REDUCEDS]
    ensures { result ≡ parts_from (reduced_by cut numbers.now) first_reduced reduced_length most_reduceds }
{
    [
        reduced_no(numbers, 0),
        reduced_no(numbers, 1),
        reduced_no(numbers, 2),
        reduced_no(numbers, 3),
        reduced_no(numbers, 4),
    ]
}

fn randoms_from(numbers: &[u64]) -> [Random; places::MOST_RANDOMS]
    ensures { result ≡ parts_from (random_from numbers.now) first_random random_length most_randoms }
{
    [
        random_no(numbers, 0),
        random_no(numbers, 1),
        random_no(numbers, 2),
        random_no(numbers, 3),
        random_no(numbers, 4),
        random_no(numbers, 5),
        random_no(numbers, 6),
        random_no(numbers, 7),
        random_no(numbers, 8),
    ]
}

fn release6_from(numbers: &[u64]) -> Release6
    ensures { result ≡ release6_by cut numbers.now }
{
    Release6 {
        hasRelease: fields::flag_at(numbers, places::RELEASE6),
        hasCount: fields::flag_at(numbers, places::COUNTED),
        cellcount: fields::octet_at(numbers, places::CELLCOUNT),
        reducedcount: fields::number_at(numbers, places::REDUCEDS) as usize,
        reduced: reduceds_from(numbers),
        randomcount: fields::number_at(numbers, places::RANDOMS) as usize,
        randoms: randoms_from(numbers),
    }
}

fn release7_from(numbers: &[u64]) -> Release7
    ensures { result ≡ release7_by cut numbers.now }
{
    Release7 {
        hasRelease: fields::flag_at(numbers, places::RELEASE7),
        markcount: fields::number_at(numbers, places::MARKS) as usize,
        marks: [
            fields::flag_at(numbers, places::FIRST_MARK),
            fields::flag_at(numbers, places::FIRST_MARK + 1),
            fields::flag_at(numbers, places::FIRST_MARK + 2),
            fields::flag_at(numbers, places::FIRST_MARK + 3),
        ],
        hasUplink: fields::flag_at(numbers, places::UPLINKED),
        uplink: fields::flag_at(numbers, places::UPLINK),
        hasAmr: fields::flag_at(numbers, places::AMR),
        hasFullrate: fields::flag_at(numbers, places::FULLRATED),
        fullrate: fields::octet_at(numbers, places::FULLRATE),
        hasHalfrate: fields::flag_at(numbers, places::HALFRATED),
        halfrate: fields::octet_at(numbers, places::HALFRATE),
        hasSms: fields::flag_at(numbers, places::SMS),
        confidential: fields::flag_at(numbers, places::CONFIDENTIAL),
        private: fields::flag_at(numbers, places::PRIVATE),
    }
}

// The record whose numbers these are.
pub fn record_from(numbers: &[u64]) -> Notification
    ensures { result ≡ record_by cut numbers.now }
{
    Notification {
        hasNln: fields::flag_at(numbers, places::NUMBERED),
        nln: fields::octet_at(numbers, places::NLN),
        callcount: fields::number_at(numbers, places::CALLS) as usize,
        calls: [
            call_no(numbers, 0),
            call_no(numbers, 1),
            call_no(numbers, 2),
            call_no(numbers, 3),
        ],
        release6: release6_from(numbers),
        release7: release7_from(numbers),
    }
}
