// The calls of NT/N Rest Octets, taken from words into an array of zeros: of each only what is there is put.
ghost use Rattle.std.specs.Prelude.{◌≡◌, ◌+◌, ◌≤◌, ◌<◌, length};
ghost use Rattle.bits.specs.Field.{field};
ghost use Rattle.arrays.specs.Runs.{stored};
ghost use Rattle.arrays.specs.Inner.{Zeros};
ghost use Rattle.call.specs.Call.{frequencies, description, call_grammar, group_call};
ghost use Rattle.csn1.specs.Format.{list};
ghost use Rattle.nch.specs.Places.{calls_at, all_length};
ghost use Rattle.words.specs.Unasked.{taken};
ghost use Rattle.words.specs.Inner.{Twenty};
ghost use Rattle.nch_words.specs.Inner.{no_one_taken, no_calls_taken, call_taken, part_taken, head_numbers, Put, frequencies_run, described_run, call_run, CallsTaken};

use crate::parts::{TakenPart, no_part, part};
use nch::places;
use words::array;

// Whether a call was taken, what refusals 6 and 7 count of it, and the place behind it.
#[derive(Drop)]
struct TakenOne {
    done: bool,
    ciphered: bool,
    described: bool,
    at: usize,
}

fn no_one() -> TakenOne
    ensures { result ≡ no_one_taken }
{
    TakenOne {
        done: false,
        ciphered: false,
        described: false,
        at: 0,
    }
}

// The five numbers of a call's 36 bits.
fn put_head(head: u64, numbers: &mut [u64], place: usize)
    requires { place + 5 ≤ length numbers.old }
    ensures { numbers.new ≡ stored numbers.old place (head_numbers head) }
{
    numbers[place] = head / 512;
    numbers[place + 1] = head / 256 % 2;
    numbers[place + 2] = head / 128 % 2;
    numbers[place + 3] = head / 16 % 8;
    numbers[place + 4] = head % 16;
}

// {0 <Mobile Allocation> | 1 <Frequency Short List>}
fn take_frequencies(
    s: &[u8],
    w: &[u64; array::LENGTH],
    at: usize,
    numbers: &mut [u64],
    place: usize,
) -> TakenPart
    requires { (Twenty w.now s.now × (at < 240)) × ((place + 3 ≤ length numbers.old) × Zeros numbers.old place) }
    ensures { (result ≡ part_taken (taken frequencies s.now at))
        × Put frequencies_run place (taken frequencies s.now at) numbers.old numbers.new }
{
    let x = array::at(w, at);
    if part(x, 0, 1) != 0 {
        numbers[place] = 1;
        numbers[place + 2] = array::at(w, at + 1);
        return TakenPart {
            done: true,
            at: at + 65,
        };
    }
    let length = part(x, 1, 8);
    if length < 1 {
        return no_part();
    }
    if 8 < length {
        return no_part();
    }
    let width = 8 * length as usize;
    let y = array::at(w, at + 9);
    numbers[place + 1] = length;
    numbers[place + 2] = part(y, 0, width);
    TakenPart {
        done: true,
        at: at + 9 + width,
    }
}

// A description whose first 25 bits are d.
fn take_description(
    s: &[u8],
    w: &[u64; array::LENGTH],
    d: u64,
    at: usize,
    numbers: &mut [u64],
    place: usize,
) -> TakenPart
    requires { ((Twenty w.now s.now × (at < 200)) × (d ≡ field s.now at 25)) × ((place + 6 ≤ length numbers.old) × Zeros numbers.old place) }
    ensures { (result ≡ part_taken (taken description s.now at))
        × Put described_run place (taken description s.now at) numbers.old numbers.new }
{
    let channel = d / 2;
    let flag = d % 2;
    if channel / 4096 % 2 != flag {
        return no_part();
    }
    numbers[place] = 1;
    numbers[place + 1] = channel;
    if flag == 0 {
        return TakenPart {
            done: true,
            at: at + 25,
        };
    }
    numbers[place + 2] = 1;
    take_frequencies(s, w, at + 25, &mut *numbers, place + 3)
}

// The call behind a place, of which x is the 64 bits from there on: the bit that leads it, its 36 bits, a flag and the 25 bits of a description that does not hop are in them.
fn take_call(
    s: &[u8],
    w: &[u64; array::LENGTH],
    x: u64,
    at: usize,
    numbers: &mut [u64],
    place: usize,
) -> TakenOne
    requires { ((Twenty w.now s.now × (at < 160)) × (x ≡ field s.now at 64)) × ((place + 11 ≤ length numbers.old) × Zeros numbers.old place) }
    ensures { (result ≡ call_taken (taken call_grammar s.now (at + 1)))
        × Put call_run place (taken call_grammar s.now (at + 1)) numbers.old numbers.new }
{
    let head = part(x, 1, 36);
    if 99999999 < head / 512 {
        return no_one();
    }
    put_head(head, &mut *numbers, place);
    let ciphered = 1 <= head % 16;
    if part(x, 37, 1) == 0 {
        return TakenOne {
            done: true,
            ciphered,
            described: false,
            at: at + 38,
        };
    }
    let d = take_description(s, w, part(x, 38, 25), at + 38, &mut *numbers, place + 5);
    if !d.done {
        return no_one();
    }
    TakenOne {
        done: true,
        ciphered,
        described: true,
        at: d.at,
    }
}

// What was taken of the calls; not done where a test was not met, a place is behind the end or there are more than four.
#[derive(Drop)]
pub(crate) struct TakenCalls {
    pub(crate) done: bool,
    pub(crate) ciphered: usize,
    pub(crate) described: usize,
    pub(crate) at: usize,
}

fn no_calls() -> TakenCalls
    ensures { result ≡ no_calls_taken }
{
    TakenCalls {
        done: false,
        ciphered: 0,
        described: 0,
        at: 0,
    }
}

// The calls from a bit on. Each asks once whether it leaves a bit for the 0 that closes the list.
pub(crate) fn take_calls(
    s: &[u8],
    w: &[u64; array::LENGTH],
    from: usize,
    numbers: &mut [u64],
) -> TakenCalls
    requires { Twenty w.now s.now × ((all_length ≤ length numbers.old) × Zeros numbers.old calls_at) }
    ensures { CallsTaken ((list group_call).read s.now from) result numbers.old numbers.new }
{
    if 159 < from {
        return no_calls();
    }
    let mut count: usize = 0;
    let mut ciphered: usize = 0;
    let mut described: usize = 0;
    let mut at = from;
    'entries: loop {
        let x = array::at(w, at);
        if part(x, 0, 1) == 0 {
            numbers[places::CALLS] = count as u64;
            break 'entries TakenCalls {
                done: true,
                ciphered,
                described,
                at: at + 1,
            };
        }
        if places::MOST_CALLS <= count {
            break 'entries no_calls();
        }
        let c = take_call(
            s,
            w,
            x,
            at,
            &mut *numbers,
            places::FIRST_CALL + places::CALL_LENGTH * count,
        );
        if !c.done {
            break 'entries no_calls();
        }
        if 159 < c.at {
            break 'entries no_calls();
        }
        count += 1;
        ciphered += c.ciphered as usize;
        described += c.described as usize;
        at = c.at;
    }
}
