// The events on a lent state: each is refused with its number and its bit and changes no octet, or works in place.
ghost use Rattle.std.specs.Prelude.{◌≡◌, [], ◌∷◌, ◌≤◌, length};
ghost use Rattle.bits.specs.Field.{both};
ghost use Rattle.nch.specs.NotificationNumbers.{record_from, Fits};
ghost use Rattle.receiver.specs.Channels.{key_count, Channel, hasNln};
ghost use Rattle.receiver.specs.Model.{no_paged, rule_for, keep};
ghost use Rattle.receiver.specs.Entries.{nch_entries, facch_entry, paged_of, pch_entries};
ghost use Rattle.receiver.specs.Count.{bits, counting, counting_over, cell_with};
ghost use Rattle.receiver.specs.Step.{changes, numbering, cell_after, most_entries, moved, nch, facch, pch, joined, reselected, handed_over, reconfigured, left_idle, bit22, tick};
ghost use Rattle.layout.specs.Layout.{state_length, decode_of};
ghost use Rattle.lent.specs.Events.{Fed};
ghost use Rattle.lent.specs.Inner.{Accepted, early_code};

use crate::tell::{tell_facch, tell_nch, tell_pch};
use layout::answer::{cell_of, put_head, put_page, tick_of};
use layout::places::index_of;
use layout::sweep::{pass, sweep};
use nch::places;
use receiver::{Cell, LAST_KEY, Move, Rule, count, events, meeting, messages};

// The number that comes before the event's own: 13 for another length, then 9.
fn early(b: &[u8], time: u32) -> u32
    ensures { result ≡ early_code b.now time }
{
    if b.len() != layout::LENGTH {
        return 13;
    }
    if clock::is_late(time, tick_of(b)) {
        return 9;
    }
    0
}

// An accepted event without entries.
fn accept(b: &mut [u8], time: u32, rule: Rule, cell: Cell)
    requires { length b.old ≡ state_length }
    ensures { Accepted b.old time rule cell 0 [] no_paged b.new }
{
    let lost = sweep(b, time, rule);
    put_head(b, time, cell, lost.expired, lost.dropped, 0);
}

// An accepted tick. What is known of the cell is read behind the sweep and written as it was read, so that the compiler leaves out both.
fn accept_tick(b: &mut [u8], time: u32)
    requires { length b.old ≡ state_length }
    ensures { Accepted b.old time keep (decode_of b.old).cell 0 [] no_paged b.new }
{
    let lost = pass(b, time);
    let cell = cell_of(b);
    put_head(b, time, cell, lost.expired, lost.dropped, 0);
}

// An accepted value of bit 22. It takes no half, as a tick, and what is known of the cell is read behind the sweep too.
fn accept_bit(b: &mut [u8], time: u32, value: u8)
    requires { length b.old ≡ state_length }
    ensures { Accepted b.old time keep (cell_with (decode_of b.old).cell (bits value)) 0 [] no_paged b.new }
{
    let lost = pass(b, time);
    let cell = count::turned(cell_of(b), value);
    put_head(b, time, cell, lost.expired, lost.dropped, 0);
}

// An accepted NCH message, by its numbers.
fn accept_nch(b: &mut [u8], time: u32, m: &[u64])
    requires { (length b.old ≡ state_length) × (Fits m.now × (length (nch_entries (record_from m.now)) ≤ most_entries)) }
    ensures { Accepted b.old time
        (rule_for (λ (c : Channel). both (hasNln c) (both (record_from m.now).hasNln (changes (decode_of b.old).cell (record_from m.now).nln))) key_count)
        (cell_after (decode_of b.old).cell (numbering (record_from m.now).hasNln (record_from m.now).nln)
        (counting (record_from m.now).release6.hasCount (record_from m.now).release6.cellcount))
        0 (nch_entries (record_from m.now)) no_paged b.new }
{
    let last = cell_of(b);
    let numbered = m[places::NUMBERED] == 1;
    let nln = m[places::NLN] as u8;
    let counted = m[places::COUNTED] == 1;
    let cellcount = m[places::CELLCOUNT] as u8;
    let cell = count::taken(events::nln_cell(last, numbered, nln), counted, cellcount);
    let lost = sweep(b, time, events::nln_rule(last, numbered, nln));
    let entries = tell_nch(b, cell, time, m);
    put_head(b, time, cell, lost.expired, lost.dropped, entries);
}

// An accepted FACCH message that notifies a call: it takes no half, as a tick.
fn accept_facch(b: &mut [u8], time: u32, m: facch::Notification)
    requires { length b.old ≡ state_length }
    ensures { Accepted b.old time keep
        (cell_with (decode_of b.old).cell (counting_over m.release6.hasCount m.release6.b22 m.release6.cellcount)) 1 (facch_entry m ∷ []) no_paged b.new }
{
    let six = m.release6;
    let lost = pass(b, time);
    let cell = count::taken_over(cell_of(b), six.hasCount, six.b22, six.cellcount);
    tell_facch(b, cell, time, m);
    put_head(b, time, cell, lost.expired, lost.dropped, 1);
}

// An accepted FACCH message that pages somebody: its count is taken, it touches no half, and it has no entries.
fn accept_page(b: &mut [u8], time: u32, m: facch::Notification)
    requires { length b.old ≡ state_length }
    ensures { Accepted b.old time keep
        (cell_with (decode_of b.old).cell (counting_over m.release6.hasCount m.release6.b22 m.release6.cellcount)) 1 [] (paged_of m) b.new }
{
    let six = m.release6;
    let cell = count::taken_over(cell_of(b), six.hasCount, six.b22, six.cellcount);
    let gone = pass(b, time);
    put_page(
        b,
        time,
        cell,
        gone.expired,
        gone.dropped,
        messages::paged_of(m),
    );
}

// An accepted entry of the PCH.
fn accept_pch(b: &mut [u8], time: u32, rule: Rule, p: pch::Entry)
    requires { length b.old ≡ state_length }
    ensures { Accepted b.old time rule (cell_with (decode_of b.old).cell (counting p.hasCount p.cellcount)) 2 (pch_entries p) no_paged b.new }
{
    let cell = count::taken(cell_of(b), p.hasCount, p.cellcount);
    let lost = sweep(b, time, rule);
    tell_pch(b, cell, time, p);
    put_head(b, time, cell, lost.expired, lost.dropped, 1);
}

// NT/N Rest Octets.
pub fn nch(b: &mut [u8], time: u32, octets: &[u8]) -> u32
    ensures { Fed b.old (nch time octets.now) b.new result }
{
    let n = early(b, time);
    if n != 0 {
        return n;
    }
    let mut m = [0u64; places::LENGTH];
    let r = nch_words::read_into(octets, &mut m);
    if r.number != 0 {
        return csn1::code(r);
    }
    accept_nch(b, time, &m);
    0
}

// NOTIFICATION/FACCH.
pub fn facch(b: &mut [u8], time: u32, octets: &[u8]) -> u32
    ensures { Fed b.old (facch time octets.now) b.new result }
{
    let n = early(b, time);
    if n != 0 {
        return n;
    }
    let m = facch::read(octets);
    if m.refusal.number != 0 {
        return csn1::code(m.refusal);
    }
    let record = m.record;
    if record.paging {
        accept_page(b, time, record);
        return 0;
    }
    accept_facch(b, time, record);
    0
}

// An entry of the PCH, as numbers.
pub fn pch(b: &mut [u8], time: u32, numbers: &[u64]) -> u32
    ensures { Fed b.old (pch time numbers.now) b.new result }
{
    let n = early(b, time);
    if n != 0 {
        return n;
    }
    let m = pch::read(numbers);
    if m.refusal.number != 0 {
        return csn1::code(m.refusal);
    }
    let record = m.record;
    let call = record.call;
    let i = index_of(b, meeting::key_of(call));
    accept_pch(b, time, events::page_rule(i), record);
    0
}

// The mobile joined the call of a key: halves under other keys go, on all channels.
pub fn joined(b: &mut [u8], time: u32, key: u32) -> u32
    ensures { Fed b.old (joined time key) b.new result }
{
    let n = early(b, time);
    if n != 0 {
        return n;
    }
    if LAST_KEY < key {
        return 4;
    }
    let cell = cell_of(b);
    let i = index_of(b, key as u64);
    accept(b, time, events::join_rule(i), cell);
    0
}

// The mobile moved.
fn move_on(b: &mut [u8], time: u32, m: Move) -> u32
    ensures { Fed b.old (moved time m) b.new result }
{
    let n = early(b, time);
    if n != 0 {
        return n;
    }
    let cell = events::move_cell(cell_of(b), m);
    accept(b, time, events::move_rule(m), cell);
    0
}

// Another cell was selected: NCH and PCH halves go.
pub fn reselected(b: &mut [u8], time: u32) -> u32
    ensures { Fed b.old (reselected time) b.new result }
{
    move_on(b, time, Move::Reselection)
}

// Handed over to another cell: FACCH halves go.
pub fn handed_over(b: &mut [u8], time: u32) -> u32
    ensures { Fed b.old (handed_over time) b.new result }
{
    move_on(b, time, Move::Handover)
}

// The group call was reconfigured: FACCH halves go.
pub fn reconfigured(b: &mut [u8], time: u32) -> u32
    ensures { Fed b.old (reconfigured time) b.new result }
{
    move_on(b, time, Move::Reconfiguration)
}

// The mobile left idle mode: PCH halves go.
pub fn left_idle(b: &mut [u8], time: u32) -> u32
    ensures { Fed b.old (left_idle time) b.new result }
{
    move_on(b, time, Move::LeftIdle)
}

// Bit 22 of COUNT has a value, 0 or 1.
pub fn bit_22(b: &mut [u8], time: u32, value: u32) -> u32
    ensures { Fed b.old (bit22 time value) b.new result }
{
    let n = early(b, time);
    if n != 0 {
        return n;
    }
    if 1 < value {
        return 12;
    }
    accept_bit(b, time, value as u8);
    0
}

// Time passed.
pub fn tick(b: &mut [u8], time: u32) -> u32
    ensures { Fed b.old (tick time) b.new result }
{
    let n = early(b, time);
    if n != 0 {
        return n;
    }
    accept_tick(b, time);
    0
}
