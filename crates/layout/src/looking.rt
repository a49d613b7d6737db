// Looking at the places before a sweep, which writes nothing: whether none is held, and whether no half has run out. Where it says no, the sweep looks again.
ghost use Rattle.std.specs.Prelude.{◌≡◌, true, ℕ, ◌+◌, ◌*◌, ◌/◌, ◌%◌, ◌<◌, ◌≤◌, length, get_or};
ghost use Rattle.receiver.specs.Channels.{channels, key_count, places, place_on};
ghost use Rattle.receiver.specs.Model.{ran_out_of};
ghost use Rattle.layout.specs.Layout.{state_length, kind_place, slot_no};
ghost use Rattle.layout.specs.Sweep.{timer_no};
ghost use Rattle.layout.specs.Inner.{Running, Leaves, Thirds};

use crate::octets::{u32_at, u64_at};
use crate::{KINDS, SINCES, TIMERS};
use receiver::channels::CHANNELS;
use receiver::{PLACES, Rule, Setup, channels};

// The places in whole groups of twenty-four: three numbers of eight kinds, and eight of each channel.
const MANY: usize = PLACES / 24 * 24;

// The kinds of all places, eight to a number.
const EIGHTS: usize = (PLACES + 7) / 8;

// Whether the 24 octets from a place on are all zero, in three tests.
pub(crate) fn quiet(b: &[u8], at: usize) -> bool
    requires { at + 24 ≤ length b.now }
    ensures { result ≡ true → (k : ℕ) → k < 24 → get_or b.now (at + k) 0 ≡ 0 }
{
    u64_at(b, at) == 0 && u64_at(b, at + 8) == 0 && u64_at(b, at + 16) == 0
}

// Whether no place holds a half, for the usual tick: the first eight kinds, and then all others with no branch between them, so that a machine with vectors takes several at once.
pub(crate) fn idle(b: &[u8]) -> bool
    requires { length b.now ≡ state_length }
    ensures { result ≡ true → (k : ℕ) → k < places → get_or b.now (kind_place k) 0 ≡ 0 }
{
    if u64_at(b, KINDS) != 0 {
        return false;
    }
    let mut all: u64 = 0;
    for k in 1..EIGHTS {
        all |= u64_at(b, KINDS + 8 * k);
    }
    all == 0
}

// Whether the half at a place, if there is one, has run out: with no branch, so that eight of them are asked at once.
fn late(b: &[u8], tick: u32, timer: u32, i: usize) -> bool
    requires { (length b.now ≡ state_length) × ((i < places) × (timer ≡ timer_no b.now i)) }
    ensures { result ≡ ran_out_of tick (timer_no b.now i) (slot_no b.now i) }
{
    let held = b[KINDS + i] != 0;
    let old = timer <= clock::elapsed(tick, u32_at(b, SINCES + 4 * i));
    held & old
}

// Whether no half of eight places has run out, where the timers of the first three of them are ta, tb and tc.
fn eight_run(b: &[u8], tick: u32, ta: u32, tb: u32, tc: u32, from: usize) -> bool
    requires { (length b.now ≡ state_length) × ((from + 8 ≤ places) × ((ta ≡ timer_no b.now from) × ((tb ≡ timer_no b.now (from + 1)) × (tc ≡ timer_no b.now (from + 2))))) }
    ensures { result ≡ true → Running tick b.now from 8 }
{
    let low = late(b, tick, ta, from)
        | late(b, tick, tb, from + 1)
        | late(b, tick, tc, from + 2)
        | late(b, tick, ta, from + 3);
    let high = late(b, tick, tb, from + 4)
        | late(b, tick, tc, from + 5)
        | late(b, tick, ta, from + 6)
        | late(b, tick, tb, from + 7);
    !(low | high)
}

// And of the six behind the last whole group. Of the eight kinds of its number two are of no place.
fn rest_run(b: &[u8], tick: u32, t3206: u32, t3208: u32, t3210: u32) -> bool
    requires { (length b.now ≡ state_length) × ((t3206 ≡ timer_no b.now 0) × ((t3208 ≡ timer_no b.now 1) × (t3210 ≡ timer_no b.now 2))) }
    ensures { result ≡ true → Running tick b.now (places / 24 * 24) (places % 24) }
{
    if u64_at(b, KINDS + MANY) == 0 {
        return true;
    }
    let low = late(b, tick, t3206, MANY)
        | late(b, tick, t3208, MANY + 1)
        | late(b, tick, t3210, MANY + 2);
    let high = late(b, tick, t3206, MANY + 3)
        | late(b, tick, t3208, MANY + 4)
        | late(b, tick, t3210, MANY + 5);
    !(low | high)
}

// And of all. Eight empty places are passed by one number. Where it stands is counted apart from the places: else the compiler takes the kinds out of that number again, one by one.
// Stays: j is counted by hand. By KINDS + 24 * g in its place, which was tried, nothing is done by vectors any more, and a tick with four halves takes 209 instructions and not 134.
pub(crate) fn all_run(b: &[u8], tick: u32) -> bool
    requires { length b.now ≡ state_length }
    ensures { result ≡ true → Running tick b.now 0 places }
{
    let t3206 = u32_at(b, TIMERS);
    let t3208 = u32_at(b, TIMERS + 4);
    let t3210 = u32_at(b, TIMERS + 8);
    let mut j: usize = 0;
    for g in 0..PLACES / 24 {
        let i = 24 * g;
        if u64_at(b, KINDS + 8 * j) != 0 && !eight_run(b, tick, t3206, t3208, t3210, i) {
            return false;
        }
        if u64_at(b, KINDS + 8 * j + 8) != 0 && !eight_run(b, tick, t3210, t3206, t3208, i + 8) {
            return false;
        }
        if u64_at(b, KINDS + 8 * j + 16) != 0 && !eight_run(b, tick, t3208, t3210, t3206, i + 16) {
            return false;
        }
        j += 3;
    }
    rest_run(b, tick, t3206, t3208, t3210)
}

// Every third octet of a number of eight kinds, from its first, its second and its third on.
const FIRST: u64 = 71776123339407615;

const SECOND: u64 = 18374687574888349440;

const THIRD: u64 = 280375481794560;

// Whether every third octet is 0 in each of three numbers.
fn thirds_empty(x: u64, y: u64, z: u64) -> bool
    ensures { result ≡ true → Thirds x y z }
{
    x & FIRST | y & SECOND | z & THIRD == 0
}

// Whether the channels of which a rule takes halves hold none: the kinds of all places in three numbers, since 24 places have eight of each channel, and with no branch between them.
fn bare(b: &[u8], rule: Rule) -> bool
    requires { length b.now ≡ state_length }
    ensures { result ≡ true → Leaves rule b.now }
{
    let mut x: u64 = 0;
    let mut y: u64 = 0;
    let mut z: u64 = 0;
    for g in 0..PLACES / 24 {
        x |= u64_at(b, KINDS + 24 * g);
        y |= u64_at(b, KINDS + 24 * g + 8);
        z |= u64_at(b, KINDS + 24 * g + 16);
    }
    x |= u64_at(b, KINDS + MANY);
    (!rule.nch || thirds_empty(x, y, z))
        && (!rule.facch || thirds_empty(z, x, y))
        && (!rule.pch || thirds_empty(y, z, x))
}

// Whether the keys from one on to another hold nothing on a channel.
fn none_held(b: &[u8], ch: usize, from: usize, to: usize) -> bool
    requires { (length b.now ≡ state_length) × ((ch < channels) × ((from ≤ to) × (to ≤ key_count))) }
    ensures { result ≡ true → (key : ℕ) → from ≤ key → key < to → get_or b.now (kind_place (place_on key ch)) 0 ≡ 0 }
{
    let mut all: u8 = 0;
    for key in from..to {
        all |= b[KINDS + (CHANNELS * key + ch)];
    }
    all == 0
}

// Whether no other key than one holds anything on a channel.
fn alone(b: &[u8], ch: usize, but: usize) -> bool
    requires { (length b.now ≡ state_length) × (ch < channels) }
    ensures { result ≡ true → (key : ℕ) → key < key_count → (key ≡ but → ⊥) → get_or b.now (kind_place (place_on key ch)) 0 ≡ 0 }
{
    if Setup::KEYS <= but {
        return none_held(b, ch, 0, Setup::KEYS);
    }
    none_held(b, ch, 0, but) && none_held(b, ch, but + 1, Setup::KEYS)
}

// Whether a rule takes nothing of what is held: as a rule none of its channels holds anything, or only the key does that it leaves.
pub(crate) fn leaves_all(b: &[u8], rule: Rule) -> bool
    requires { length b.now ≡ state_length }
    ensures { result ≡ true → Leaves rule b.now }
{
    if bare(b, rule) {
        return true;
    }
    let but = rule.but;
    (!rule.nch || alone(b, channels::NCH, but))
        && (!rule.facch || alone(b, channels::FACCH, but))
        && (!rule.pch || alone(b, channels::PCH, but))
}
