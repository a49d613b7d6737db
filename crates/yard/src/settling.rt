// What the calls become when the receiver has had an accepted event: some leave, then those of its entries come in.
ghost use Rattle.std.specs.Prelude.{◌≡◌, true, false, ◌≤◌, ◌<◌, length};
ghost use Rattle.receiver.specs.Step.{most_entries};
ghost use Rattle.layout.specs.Layout.{state_length};
ghost use Rattle.yard.specs.Yard.{call_count, leaves};
ghost use Rattle.yard.specs.Octets.{yard_length, inside, call_no, place_for, left_at, left_run, brought_at, brought_run, settled};
ghost use Rattle.yard.specs.Inner.{NoneFrom, NoCalls};

use crate::octets::{copy, u32_at, zero};
use crate::{CALL_LENGTH, CALLS, TOLD_LENGTH, TOLDS};
use layout::parts::{carries, part_of};
use layout::places::index_of;
use receiver::{MOST_ENTRIES, Setup};

// Milliseconds without a complete record after which a call goes.
const TIMER: u32 = 30000;

// How many entries there are, and key and number told of one, among the parts of an answer.
const COUNT: usize = 2;

const KEY: usize = 3;

const NUMBER: usize = 4;

// Whether the call at a place, if there is one, leaves.
// Stays: a flag, here and below. `leaves`, `left_at` and `settled` of yard's specs, of which theorems speak, take it.
fn leaves(b: &[u8], i: usize, time: u32, all: bool) -> bool
    requires { (length b.now ≡ yard_length) × (i < call_count) }
    ensures { result ≡ leaves all time (call_no b.now i) }
{
    if all {
        return true;
    }
    let at = layout::LENGTH + CALL_LENGTH * i;
    carries(u64::from(b[at + 16])) && TIMER <= clock::elapsed(time, u32_at(b, at))
}

// Its place is all zero then.
fn leave(b: &mut [u8], i: usize, time: u32, all: bool)
    requires { (length b.old ≡ yard_length) × (i < call_count) }
    ensures { b.new ≡ left_at all time b.old i }
{
    if !leaves(b, i, time, all) {
        return;
    }
    zero(b, layout::LENGTH + CALL_LENGTH * i, CALL_LENGTH);
}

// All places, one after the other.
fn leave_all(b: &mut [u8], time: u32, all: bool)
    requires { length b.old ≡ yard_length }
    ensures { b.new ≡ left_run all time call_count b.old }
{
    for i in 0..CALLS {
        leave(b, i, time, all);
    }
}

// The place for an entry of the receiver's answer: that of its key, where it has a complete record.
fn place_for(r: &[u8], j: usize) -> usize
    requires { length r.now ≡ state_length }
    ensures { result ≡ place_for r.now j }
{
    if carries(part_of(r, j, NUMBER)) {
        index_of(r, part_of(r, j, KEY))
    } else {
        Setup::KEYS
    }
}

// An entry comes in: its octets and the receiver's tick are copied, whatever stood there.
fn bring(b: &mut [u8], j: usize)
    requires { (length b.old ≡ yard_length) × (j < most_entries) }
    ensures { b.new ≡ brought_at b.old j }
{
    let i = place_for(&b[..layout::LENGTH], j);
    if CALLS <= i {
        return;
    }
    let at = layout::LENGTH + CALL_LENGTH * i;
    copy(b, 0, at, 4);
    copy(b, TOLDS + TOLD_LENGTH * j, at + 8, TOLD_LENGTH);
}

// How many entries the answer has, and no more than there is room for: those behind them bring nothing.
fn entries(r: &[u8]) -> usize
    requires { length r.now ≡ state_length }
    ensures { (result ≤ most_entries) × NoneFrom r.now result }
{
    (part_of(r, 0, COUNT) as usize).min(MOST_ENTRIES)
}

// The first n of them, in order, so that the latest wins.
fn bring_first(b: &mut [u8], n: usize)
    requires { (length b.old ≡ yard_length) × (n ≤ most_entries) }
    ensures { b.new ≡ brought_run n b.old }
{
    for j in 0..n {
        bring(b, j);
    }
}

// All of them.
fn bring_all(b: &mut [u8])
    requires { length b.old ≡ yard_length }
    ensures { b.new ≡ brought_run most_entries b.old }
{
    let n = entries(&b[..layout::LENGTH]);
    bring_first(b, n);
}

pub(crate) fn settle(b: &mut [u8], time: u32, all: bool)
    requires { length b.old ≡ yard_length }
    ensures { b.new ≡ settled all time b.old }
{
    leave_all(b, time, all);
    bring_all(b);
}

// Whether no place has a call: with no branch between the places.
fn none_shown(b: &[u8]) -> bool
    requires { length b.now ≡ yard_length }
    ensures { result ≡ true → NoCalls b.now call_count }
{
    let mut all: u8 = 0;
    for i in 0..CALLS {
        all |= b[layout::LENGTH + CALL_LENGTH * i + 16];
    }
    all == 0
}

// Whether nothing was told and nothing is shown, as at the usual tick.
fn is_quiet(b: &[u8]) -> bool
    requires { length b.now ≡ yard_length }
    ensures { result ≡ true → NoneFrom (inside b.now) 0 × NoCalls b.now call_count }
{
    entries(&b[..layout::LENGTH]) == 0 && none_shown(b)
}

// The same where no call need leave but by its age: where all is quiet, nothing leaves and nothing comes.
pub(crate) fn settle_aged(b: &mut [u8], time: u32)
    requires { length b.old ≡ yard_length }
    ensures { b.new ≡ settled false time b.old }
{
    if is_quiet(b) {
        return;
    }
    settle(b, time, false);
}
