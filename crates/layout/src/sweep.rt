// One sweep over the places: what ran out goes, then what an event takes. Empty places are passed by the eight keys.
ghost use Rattle.std.specs.Prelude.{◌≡◌, ◌+◌, ◌*◌, ◌<◌, ◌≤◌, length};
ghost use Rattle.csn1.specs.Told.{as_bit};
ghost use Rattle.bits.specs.Field.{pick};
ghost use Rattle.receiver.specs.Channels.{channels, key_count, places, place_on};
ghost use Rattle.receiver.specs.Model.{keep, spares, ran_out_of, taken_of, count_at, expired_of, dropped_of};
ghost use Rattle.layout.specs.Octets.{tabulate};
ghost use Rattle.layout.specs.Layout.{state_length, is_state, slot_no, decode_of};
ghost use Rattle.layout.specs.Sweep.{timer_no, swept_at, swept_run, swept_octets};
ghost use Rattle.layout.specs.Inner.{takes_none_of};

use crate::looking::{all_run, idle, leaves_all, quiet};
use crate::octets::u32_at;
use crate::places::empty;
use crate::{KINDS, LENGTH, SINCES, TIMERS};
use receiver::channels::CHANNELS;
use receiver::{Rule, Setup, channels, store};

// How many halves ran out, and how many an event's own rule took.
#[derive(Drop)]
pub struct Lost {
    pub expired: u32,
    pub dropped: u32,
}

// Whether a rule leaves the half of a key on a channel.
fn spared(rule: Rule, key: usize, ch: usize) -> bool
    requires { ch < channels }
    ensures { result ≡ spares rule (place_on key ch) }
{
    !channels::flag_of(ch, rule.nch, rule.facch, rule.pch) || key == rule.but
}

// One place, beside what was counted before it: a half that ran out goes, and else one that the rule does not leave.
fn sweep_place(
    b: &mut [u8],
    tick: u32,
    rule: Rule,
    spared: bool,
    timer: u32,
    i: usize,
    expired: u32,
    dropped: u32,
) -> Lost
    requires { (length b.old ≡ state_length) × ((i < places) × ((timer ≡ timer_no b.old i) × ((spared ≡ spares rule i) × ((expired ≤ i) × (dropped ≤ i))))) }
    ensures { (result.expired ≡ expired + as_bit (ran_out_of tick (timer_no b.old i) (slot_no b.old i)))
        × ((result.dropped ≡ dropped + as_bit (taken_of tick (timer_no b.old i) rule i (slot_no b.old i)))
        × (b.new ≡ swept_at tick rule b.old i)) }
{
    if b[KINDS + i] == 0 {
        return Lost { expired, dropped };
    }
    if timer <= clock::elapsed(tick, u32_at(b, SINCES + 4 * i)) {
        empty(b, i);
        return Lost {
            expired: expired + 1,
            dropped,
        };
    }
    if spared {
        return Lost { expired, dropped };
    }
    empty(b, i);
    Lost {
        expired,
        dropped: dropped + 1,
    }
}

// The places of a key, one for each channel: the compiler makes three of the loop, each with the timer and the flag of its channel.
fn sweep_key(
    b: &mut [u8],
    tick: u32,
    rule: Rule,
    key: usize,
    mut expired: u32,
    mut dropped: u32,
) -> Lost
    requires { (length b.old ≡ state_length) × ((key < key_count) × ((expired ≤ channels * key) × (dropped ≤ channels * key))) }
    ensures { (result.expired ≡ expired + count_at (λ i s. ran_out_of tick (timer_no b.old i) s) (channels * key) (tabulate (slot_no b.old) (channels * key) channels))
        × ((result.dropped ≡ dropped + count_at (λ i s. taken_of tick (timer_no b.old i) rule i s) (channels * key) (tabulate (slot_no b.old) (channels * key) channels))
        × (b.new ≡ swept_run tick rule (channels * key) channels b.old)) }
{
    let t3206 = u32_at(b, TIMERS);
    let t3208 = u32_at(b, TIMERS + 4);
    let t3210 = u32_at(b, TIMERS + 8);
    for ch in 0..CHANNELS {
        let lost = sweep_place(
            b,
            tick,
            rule,
            spared(rule, key, ch),
            channels::timer_of(ch, t3206, t3208, t3210),
            CHANNELS * key + ch,
            expired,
            dropped,
        );
        expired = lost.expired;
        dropped = lost.dropped;
    }
    Lost { expired, dropped }
}

// The places of n keys, at most eight; where all of those of eight are empty, or hold nothing behind the last place, they are passed by three numbers.
fn sweep_group(
    b: &mut [u8],
    tick: u32,
    rule: Rule,
    from: usize,
    n: usize,
    mut expired: u32,
    mut dropped: u32,
) -> Lost
    requires { (length b.old ≡ state_length) × ((from + n ≤ key_count) × ((n ≤ 8) × ((expired ≤ channels * from) × (dropped ≤ channels * from)))) }
    ensures { (result.expired ≡ expired + count_at (λ i s. ran_out_of tick (timer_no b.old i) s) (channels * from) (tabulate (slot_no b.old) (channels * from) (channels * n)))
        × ((result.dropped ≡ dropped + count_at (λ i s. taken_of tick (timer_no b.old i) rule i s) (channels * from) (tabulate (slot_no b.old) (channels * from) (channels * n)))
        × (b.new ≡ swept_run tick rule (channels * from) (channels * n) b.old)) }
{
    if quiet(b, KINDS + CHANNELS * from) {
        return Lost { expired, dropped };
    }
    for k in 0..n {
        let lost = sweep_key(b, tick, rule, from + k, expired, dropped);
        expired = lost.expired;
        dropped = lost.dropped;
    }
    Lost { expired, dropped }
}

// The keys in whole groups of eight.
const WHOLE: usize = Setup::KEYS / 8 * 8;

// All places.
fn sweep_all(b: &mut [u8], tick: u32, rule: Rule) -> Lost
    requires { length b.old ≡ state_length }
    ensures { (result.expired ≡ expired_of (decode_of b.old) tick (decode_of b.old).slots)
        × ((result.dropped ≡ dropped_of (decode_of b.old) tick rule) × (b.new ≡ swept_octets tick rule b.old)) }
{
    let mut expired: u32 = 0;
    let mut dropped: u32 = 0;
    for g in 0..Setup::KEYS / 8 {
        let lost = sweep_group(b, tick, rule, 8 * g, 8, expired, dropped);
        expired = lost.expired;
        dropped = lost.dropped;
    }
    sweep_group(b, tick, rule, WHOLE, Setup::KEYS - WHOLE, expired, dropped)
}

// What ran out goes. Most ticks find nothing to do, and only look.
fn expire(b: &mut [u8], tick: u32) -> Lost
    requires { length b.old ≡ state_length }
    ensures { (result.expired ≡ expired_of (decode_of b.old) tick (decode_of b.old).slots)
        × ((result.dropped ≡ dropped_of (decode_of b.old) tick keep) × (b.new ≡ swept_octets tick keep b.old)) }
{
    if all_run(b, tick) {
        return Lost {
            expired: 0,
            dropped: 0,
        };
    }
    sweep_all(b, tick, store::keep())
}

// Whether a rule takes halves of no channel.
fn takes_none(rule: Rule) -> bool
    ensures { result ≡ takes_none_of rule }
{
    !rule.nch && !rule.facch && !rule.pch
}

// The sweep of an event. The rule is taken apart here: the usual one, which takes nothing, is passed on to nobody, and a copy of another does not wait for all of its octets.
pub fn sweep(b: &mut [u8], tick: u32, rule: Rule) -> Lost
    ensures { (result.expired ≡ pick (is_state b.old) (expired_of (decode_of b.old) tick (decode_of b.old).slots) 0)
        × ((result.dropped ≡ pick (is_state b.old) (dropped_of (decode_of b.old) tick rule) 0)
        × (b.new ≡ pick (is_state b.old) (swept_octets tick rule b.old) b.old)) }
{
    let none = Lost {
        expired: 0,
        dropped: 0,
    };
    if b.len() != LENGTH {
        return none;
    }
    if idle(b) {
        return none;
    }
    if takes_none(rule) {
        return expire(b, tick);
    }
    if leaves_all(b, rule) {
        return expire(b, tick);
    }
    let taking = Rule {
        nch: rule.nch,
        facch: rule.facch,
        pch: rule.pch,
        but: rule.but,
    };
    sweep_all(b, tick, taking)
}

// The sweep of an event that takes nothing by its own rule, for ticks: no rule is made for it, which would go through memory.
pub fn pass(b: &mut [u8], tick: u32) -> Lost
    ensures { (result.expired ≡ pick (is_state b.old) (expired_of (decode_of b.old) tick (decode_of b.old).slots) 0)
        × ((result.dropped ≡ pick (is_state b.old) (dropped_of (decode_of b.old) tick keep) 0)
        × (b.new ≡ pick (is_state b.old) (swept_octets tick keep b.old) b.old)) }
{
    let none = Lost {
        expired: 0,
        dropped: 0,
    };
    if b.len() != LENGTH {
        return none;
    }
    if idle(b) {
        return none;
    }
    expire(b, tick)
}
