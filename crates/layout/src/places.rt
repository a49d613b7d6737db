// The places for halves, one for each subscription and channel: which half each holds, since when, and its record; and the keys. A place that is not there is empty.
ghost use Rattle.std.specs.Prelude.{◌≡◌, ◌-◌, ◌<◌, ◌≤◌, length, ltb};
ghost use Rattle.bits.specs.Field.{both, pick};
ghost use Rattle.receiver.specs.Channels.{key_count, places};
ghost use Rattle.receiver.specs.Model.{no_record, empty_slot, wrap_sub, index_of, storing};
ghost use Rattle.layout.specs.Octets.{le_at, octet_at};
ghost use Rattle.layout.specs.Layout.{tick_from, state_length, is_state, is_place, kind_place, since_place, record_place, record_at, key_no, set_no, keys_in, put_slot, laid_at};
ghost use Rattle.layout.specs.Sweep.{timer_no};

use crate::octets::{put_u32, u32_at};
use crate::records::{put_octets, put_record, record_at};
use crate::{COUNT, KEYS_FROM, KINDS, LENGTH, RECORD_LENGTH, RECORDS, SETS, SINCES, TICK, TIMERS};
use receiver::{PLACES, Record, Setup, meeting, store};

// Which half is held at a place: 0 none, 1 the first, 2 the second.
pub fn half_at(b: &[u8], i: usize) -> u8
    ensures { result ≡ pick (is_place b.now i) (octet_at b.now (kind_place i)) 0 }
{
    if b.len() != LENGTH {
        return 0;
    }
    if PLACES <= i {
        return 0;
    }
    b[KINDS + i]
}

// For how many milliseconds more a half stays at a place, by the state's tick: none where its age is its timer or more.
pub fn left_at(b: &[u8], i: usize) -> u32
    ensures { result ≡ pick (is_place b.now i) (timer_no b.now i - wrap_sub (le_at 4 b.now tick_from) (le_at 4 b.now (since_place i))) 0 }
{
    if b.len() != LENGTH {
        return 0;
    }
    if PLACES <= i {
        return 0;
    }
    let timer = store::timer_at(
        u32_at(b, TIMERS),
        u32_at(b, TIMERS + 4),
        u32_at(b, TIMERS + 8),
        i,
    );
    let age = clock::elapsed(u32_at(b, TICK), u32_at(b, SINCES + 4 * i));
    if timer <= age {
        return 0;
    }
    timer - age
}

// The key at an index.
pub fn key_at(b: &[u8], i: usize) -> u32
    ensures { result ≡ pick (both (is_state b.now) (ltb i key_count)) (key_no b.now i) 0 }
{
    if b.len() != LENGTH {
        return 0;
    }
    if Setup::KEYS <= i {
        return 0;
    }
    u32_at(b, KEYS_FROM + 4 * i)
}

// The set of group keys of the key at an index.
pub fn set_at(b: &[u8], i: usize) -> u32
    ensures { result ≡ pick (both (is_state b.now) (ltb i key_count)) (set_no b.now i) 0 }
{
    if b.len() != LENGTH {
        return 0;
    }
    if Setup::KEYS <= i {
        return 0;
    }
    u32_at(b, SETS + 4 * i)
}

// The record at a place.
pub fn held_at(b: &[u8], i: usize) -> Record
    ensures { result ≡ pick (is_place b.now i) (record_at b.now (record_place i)) no_record }
{
    if b.len() != LENGTH {
        return meeting::no_record();
    }
    if PLACES <= i {
        return meeting::no_record();
    }
    record_at(b, RECORDS + RECORD_LENGTH * i)
}

// A half comes to a place.
pub(crate) fn put(b: &mut [u8], i: usize, half: u8, tick: u32, e: Record)
    requires { (length b.old ≡ state_length) × (i < places) }
    ensures { b.new ≡ put_slot b.old i (storing half tick e) }
{
    b[KINDS + i] = half;
    put_u32(b, SINCES + 4 * i, tick);
    put_record(b, RECORDS + RECORD_LENGTH * i, e);
}

// A half leaves its place: all of it is zero then.
pub(crate) fn empty(b: &mut [u8], i: usize)
    requires { (length b.old ≡ state_length) × (i < places) }
    ensures { b.new ≡ put_slot b.old i empty_slot }
{
    put(b, i, 0, 0, meeting::no_record())
}

// The same two for other crates, who may name any place. The sweep goes by those above: a test at each place would cost it its speed.
pub fn store(b: &mut [u8], i: usize, half: u8, tick: u32, e: Record)
    ensures { b.new ≡ pick (is_place b.old i) (put_slot b.old i (storing half tick e)) b.old }
{
    if b.len() != LENGTH {
        return;
    }
    if PLACES <= i {
        return;
    }
    put(b, i, half, tick, e)
}

// A half comes to a place, its record as octets.
pub fn lay(b: &mut [u8], i: usize, half: u8, tick: u32, o: &[u8; RECORD_LENGTH])
    ensures { b.new ≡ pick (is_place b.old i) (laid_at b.old i half tick o.now) b.old }
{
    if b.len() != LENGTH {
        return;
    }
    if PLACES <= i {
        return;
    }
    b[KINDS + i] = half;
    put_u32(b, SINCES + 4 * i, tick);
    put_octets(b, RECORDS + RECORD_LENGTH * i, o);
}

pub fn clear(b: &mut [u8], i: usize)
    ensures { b.new ≡ pick (is_place b.old i) (put_slot b.old i empty_slot) b.old }
{
    if b.len() != LENGTH {
        return;
    }
    if PLACES <= i {
        return;
    }
    empty(b, i)
}

// A key as a narrower number.
fn narrow(key: u64) -> u32
    requires { key ≤ 4294967295 }
    ensures { result ≡ key }
{
    key as u32
}

// How many keys there can be, as they are counted here.
const NONE: u32 = Setup::KEYS as u32;

// How many keys there are: what the octet says, and no more than there can be.
fn key_count(b: &[u8]) -> u32
    requires { length b.now ≡ state_length }
    ensures { result ≡ length (keys_in b.now) }
{
    u32::from(b[COUNT]).min(NONE)
}

// The place of a key of 32 bits, by halving, in a number of steps that only the number of keys says: what is looked at takes no branch, since none could be foretold. A key that was found
// is looked at again until the steps are done. Before each step `most` keys are left, or one less; at the end one or none, and a last look says whether the key stands there.
// Stays: a loop by halving. The keys are octets, and not a slice of numbers that a library's search takes.
fn place_in(b: &[u8], key: u32) -> u32
    requires { length b.now ≡ state_length }
    ensures { result ≡ index_of (keys_in b.now) key }
{
    let n = key_count(b);
    let mut start: u32 = 0;
    let mut end = n;
    let mut most = n;
    while 1 < most {
        let middle = (start + end) / 2;
        let here = u32_at(b, KEYS_FROM + 4 * middle as usize);
        let same = if here == key { middle } else { start };
        end = if here < key { end } else { middle };
        start = if here < key { middle + 1 } else { same };
        most /= 2;
    }
    if start < n && u32_at(b, KEYS_FROM + 4 * start as usize) == key {
        start
    } else {
        NONE
    }
}

// The place of a key among the keys that are there, by halving, and KEYS where it is not there.
// Stays: a number, KEYS for a key that is not there. `rule_for` of receiver's Model and `place_for` of yard's Octets, of which theorems speak, are made of it, and events hand it on as it is.
pub fn index_of(b: &[u8], key: u64) -> usize
    ensures { result ≡ pick (is_state b.now) (index_of (keys_in b.now) key) key_count }
{
    if b.len() != LENGTH {
        return Setup::KEYS;
    }
    if 4294967295 < key {
        return Setup::KEYS;
    }
    place_in(b, narrow(key)) as usize
}
