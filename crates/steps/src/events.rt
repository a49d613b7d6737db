// The events by value: each is refused with its number and changes nothing, or drops what ran out, then what it takes itself, then tells its entries in order.
ghost use Rattle.std.specs.Prelude.{◌≡◌, [], ◌<◌, ◌≤◌, take};
ghost use Rattle.csn1.specs.Told.{padded};
ghost use Rattle.receiver.specs.Channels.{channels, key_count, places, place_on};
ghost use Rattle.receiver.specs.Model.{no_paged, keys_of, with_slots};
ghost use Rattle.receiver.specs.Step.{most_entries, told_as, told_only, no_told, told_of, slots_after, all_after, all_told, refused_with, accepted_with};
ghost use Rattle.receiver.specs.Step.{step_of, nch, facch, pch, joined, moved, bit22, tick};

use crate::entries;
use crate::entries::Entries;
use crate::meeting::meet;
use crate::sweep::sweep;
use csn1::Refusal;
use receiver::channels::CHANNELS;
use receiver::{
    Answer, Cell, LAST_KEY, MOST_ENTRIES, Move, Receiver, Record, Rule, Setup, Told, channels,
    count, events, finding, meeting, messages, store,
};

// A number alone.
fn told_only(key: u64, number: u8) -> Told
    ensures { result ≡ told_only key number }
{
    Told {
        key,
        number,
        record: meeting::no_record(),
        follow: 0,
        kept: 0,
    }
}

// What a number told and a record say under a key, with whether the call can be followed.
pub fn told_as(set: u32, cell: Cell, key: u64, number: u8, record: Record) -> Told
    ensures { result ≡ told_as set cell key number «record» }
{
    let follow = count::follow(set, cell, number, record.call.cipher);
    Told {
        key,
        number,
        record,
        follow,
        kept: count::beside(follow, cell),
    }
}

// The place of the subscription at an index on a channel.
fn place_on(i: usize, ch: usize) -> usize
    requires { (i < key_count) × (ch < channels) }
    ensures { (result ≡ place_on i ch) × (result < places) }
{
    CHANNELS * i + ch
}

// One entry: what it is told, and the receiver then.
fn tell(r: &mut Receiver, ch: usize, now: u32, e: Record) -> Told
    requires { ch < channels }
    ensures { (result ≡ told_of (keys_of r.old) r.old.sets r.old.cell ch now r.old.slots e) × (r.new ≡ with_slots r.old (slots_after (keys_of r.old) ch now r.old.slots e)) }
{
    let key = meeting::key_of(e.call);
    let i = finding::index_of(r.keys, r.keycount, key);
    if Setup::KEYS <= i {
        return told_only(key, 0);
    }
    let at = place_on(i, ch);
    let m = meet(ch, now, r.slots[at], e);
    r.slots[at] = m.held;
    told_as(r.sets[i], r.cell, key, m.number, m.told)
}

// All entries of a message, in order.
fn tell_all(r: &mut Receiver, ch: usize, now: u32, e: Entries) -> [Told; MOST_ENTRIES]
    requires { (ch < channels) × (e.count ≤ most_entries) }
    ensures { (result ≡ padded no_told most_entries (all_told (keys_of r.old) r.old.sets r.old.cell ch now r.old.slots (take e.count e.items)))
        × (r.new ≡ with_slots r.old (all_after (keys_of r.old) ch now r.old.slots (take e.count e.items))) }
{
    let mut told = [told_only(0, 0); MOST_ENTRIES];
    for (i, record) in e.items[..e.count].iter().enumerate() {
        told[i] = tell(r, ch, now, *record);
    }
    told
}

fn refused(r: Receiver, refusal: Refusal) -> Answer
    ensures { result ≡ refused_with r refusal }
{
    Answer {
        refusal,
        expired: 0,
        dropped: 0,
        count: 0,
        entries: [told_only(0, 0); MOST_ENTRIES],
        paged: messages::no_paged(),
        receiver: r,
    }
}

// An accepted event that pages nobody: one sweep, the new tick, what is known of the cell now, then the entries.
fn accepted(r: Receiver, now: u32, rule: Rule, cell: Cell, ch: usize, e: Entries) -> Answer
    requires { (ch < channels) × (e.count ≤ most_entries) }
    ensures { result ≡ accepted_with r now rule cell ch (take e.count e.items) no_paged }
{
    let swept = sweep(r, now, rule);
    let mut after = swept.receiver;
    after.tick = now;
    after.cell = cell;
    let entries = tell_all(&mut after, ch, now, e);
    Answer {
        refusal: csn1::no_refusal(),
        expired: swept.expired,
        dropped: swept.dropped,
        count: e.count,
        entries,
        paged: messages::no_paged(),
        receiver: after,
    }
}

// An event without entries.
fn plain(r: Receiver, now: u32, rule: Rule, cell: Cell) -> Answer
    ensures { result ≡ accepted_with r now rule cell 0 [] no_paged }
{
    accepted(r, now, rule, cell, channels::NCH, entries::no_entries())
}

// ## The events

// NT/N Rest Octets.
pub fn nch(r: Receiver, tick: u32, octets: &[u8]) -> Answer
    ensures { result ≡ step_of r (nch tick octets.now) }
{
    if clock::is_late(tick, r.tick) {
        return refused(r, csn1::ground(9));
    }
    let m = nch::read(octets);
    if m.refusal.number != 0 {
        return refused(r, m.refusal);
    }
    let n = m.record;
    let rule = events::nln_rule(r.cell, n.hasNln, n.nln);
    let cell = events::nln_cell(r.cell, n.hasNln, n.nln);
    let cell = count::taken(cell, n.release6.hasCount, n.release6.cellcount);
    accepted(r, tick, rule, cell, channels::NCH, entries::nch_entries(n))
}

// NOTIFICATION/FACCH: a call, or who is paged, which touches no half.
pub fn facch(r: Receiver, tick: u32, octets: &[u8]) -> Answer
    ensures { result ≡ step_of r (facch tick octets.now) }
{
    if clock::is_late(tick, r.tick) {
        return refused(r, csn1::ground(9));
    }
    let m = facch::read(octets);
    if m.refusal.number != 0 {
        return refused(r, m.refusal);
    }
    let n = m.record;
    let six = n.release6;
    let cell = count::taken_over(r.cell, six.hasCount, six.b22, six.cellcount);
    let mut a = accepted(
        r,
        tick,
        store::keep(),
        cell,
        channels::FACCH,
        entries::facch_entries(n),
    );
    a.paged = messages::paged_of(n);
    a
}

// An entry of the PCH, as numbers: PCH halves under other keys go, whether the entry's key is subscribed or not.
pub fn pch(r: Receiver, tick: u32, numbers: &[u64]) -> Answer
    ensures { result ≡ step_of r (pch tick numbers.now) }
{
    if clock::is_late(tick, r.tick) {
        return refused(r, csn1::ground(9));
    }
    let m = pch::read(numbers);
    if m.refusal.number != 0 {
        return refused(r, m.refusal);
    }
    let p = m.record;
    let cell = count::taken(r.cell, p.hasCount, p.cellcount);
    let but = finding::index_of(r.keys, r.keycount, meeting::key_of(p.call));
    accepted(
        r,
        tick,
        events::page_rule(but),
        cell,
        channels::PCH,
        entries::pch_entries(p),
    )
}

// The mobile joined the call of a key: halves under other keys go, on all channels.
pub fn joined(r: Receiver, tick: u32, key: u32) -> Answer
    ensures { result ≡ step_of r (joined tick key) }
{
    if clock::is_late(tick, r.tick) {
        return refused(r, csn1::ground(9));
    }
    if LAST_KEY < key {
        return refused(r, csn1::ground(4));
    }
    let cell = r.cell;
    let but = finding::index_of(r.keys, r.keycount, u64::from(key));
    plain(r, tick, events::join_rule(but), cell)
}

// The mobile moved: another cell was selected, it was handed over, the group call was reconfigured, or it left idle mode.
pub fn moved(r: Receiver, tick: u32, m: Move) -> Answer
    ensures { result ≡ step_of r (moved tick m) }
{
    if clock::is_late(tick, r.tick) {
        return refused(r, csn1::ground(9));
    }
    let cell = events::move_cell(r.cell, m);
    plain(r, tick, events::move_rule(m), cell)
}

// Bit 22 of COUNT has a value, 0 or 1.
pub fn bit_22(r: Receiver, tick: u32, bit: u32) -> Answer
    ensures { result ≡ step_of r (bit22 tick bit) }
{
    if clock::is_late(tick, r.tick) {
        return refused(r, csn1::ground(9));
    }
    if 1 < bit {
        return refused(r, csn1::ground(12));
    }
    let cell = count::turned(r.cell, bit as u8);
    plain(r, tick, store::keep(), cell)
}

// Time passed.
pub fn tick(r: Receiver, now: u32) -> Answer
    ensures { result ≡ step_of r (tick now) }
{
    if clock::is_late(now, r.tick) {
        return refused(r, csn1::ground(9));
    }
    let cell = r.cell;
    plain(r, now, store::keep(), cell)
}
