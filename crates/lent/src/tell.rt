// The entries of a message: each meets its place, and its answer is written.
ghost use Rattle.std.specs.Prelude.{◌≡◌, [], ◌∷◌, ◌<◌, ◌≤◌, length};
ghost use Rattle.nch.specs.Places.{most_randoms};
ghost use Rattle.nch.specs.NotificationNumbers.{record_from, Fits};
ghost use Rattle.receiver.specs.Channels.{channels, key_count, places, place_on};
ghost use Rattle.receiver.specs.Model.{key_of, class_of, meet_of};
ghost use Rattle.bits.specs.Field.{pick};
ghost use Rattle.receiver.specs.Step.{most_entries, told_as};
ghost use Rattle.receiver.specs.Entries.{nch_entries, facch_entry, pch_entries};
ghost use Rattle.layout.specs.Layout.{state_length, is_entry, record_at, slot_no, put_carried};
ghost use Rattle.lent.specs.Events.{met_octets};
ghost use Rattle.lent.specs.Inner.{Packed, met_half, Telling, AllTold, entry_from, EntryFits};

use crate::entries::entry_at;
use layout::RECORD_LENGTH;
use layout::answer::{put_laid, put_number, put_told};
use layout::places::{clear, half_at, held_at, index_of, lay, set_at};
use layout::records::{octets_of, record_in};
use nch::places;
use receiver::channels::CHANNELS;
use receiver::{Cell, Record, Setup, channels, count, meeting, messages};

// The place of the subscription at an index on a channel.
fn place_on(i: usize, ch: usize) -> usize
    requires { (i < key_count) × (ch < channels) }
    ensures { (result ≡ place_on i ch) × (result < places) }
{
    CHANNELS * i + ch
}

// A complete call, told with its record and with whether it can be followed.
fn put_complete(b: &mut [u8], set: u32, cell: Cell, j: usize, key: u64, number: u8, e: Record)
    ensures { b.new ≡ pick (is_entry b.old j) (put_carried b.old j (told_as set cell key number e)) b.old }
{
    let follow = count::follow(set, cell, number, e.call.cipher);
    put_told(b, j, key, number, follow, count::beside(follow, cell), e);
}

// The same of a call whose record is at hand as octets.
fn put_whole(
    b: &mut [u8],
    set: u32,
    cell: Cell,
    j: usize,
    key: u64,
    number: u8,
    o: &[u8; RECORD_LENGTH],
)
    requires { Packed o.now }
    ensures { b.new ≡ pick (is_entry b.old j) (put_carried b.old j (told_as set cell key number (record_at o.now 0))) b.old }
{
    let e = record_in(o);
    let follow = count::follow(set, cell, number, e.call.cipher);
    put_laid(b, j, key, number, follow, count::beside(follow, cell), o);
}

// A half, the first (1) or the second (2), that comes where another is held: the same one again, or the opposite one, with which it joins if their references agree.
fn met_half(
    b: &mut [u8],
    cell: Cell,
    ch: usize,
    j: usize,
    i: usize,
    key: u64,
    half: u8,
    o: &[u8; RECORD_LENGTH],
)
    requires { (length b.old ≡ state_length) × ((ch < channels) × ((j < most_entries) × ((i < key_count) × (((slot_no b.old (place_on i ch)).half ≡ 0 → ⊥) × ((1 ≤ half) × ((half ≤ 2)
        × (key ≡ key_of (record_at o.now 0).call))))))) }
    ensures { b.new ≡ met_octets b.old cell ch j i (key_of (record_at o.now 0).call)
        (met_half half (slot_no b.old (place_on i ch)) (record_at o.now 0)) }
{
    let at = place_on(i, ch);
    if half_at(b, at) == half {
        put_number(b, j, key, 5);
        return;
    }
    let e = record_in(o);
    let h = held_at(b, at);
    if !meeting::agrees(h, e) {
        put_number(b, j, key, 7);
        return;
    }
    let set = set_at(b, i);
    clear(b, at);
    let y = if half == 1 {
        meeting::join(e, h)
    } else {
        meeting::join(h, e)
    };
    put_complete(b, set, cell, j, key, 3, y);
}

// An entry of class c under the key of subscription i meets its place on channel ch, with what is known of the cell.
fn ours(
    b: &mut [u8],
    cell: Cell,
    ch: usize,
    tick: u32,
    j: usize,
    i: usize,
    key: u64,
    c: u8,
    o: &[u8; RECORD_LENGTH],
)
    requires { (length b.old ≡ state_length) × ((ch < channels) × ((j < most_entries) × ((i < key_count) × (Packed o.now × ((key ≡ key_of (record_at o.now 0).call)
        × (c ≡ class_of ch (record_at o.now 0))))))) }
    ensures { b.new ≡ met_octets b.old cell ch j i (key_of (record_at o.now 0).call)
        (meet_of ch tick (slot_no b.old (place_on i ch)) (record_at o.now 0)) }
{
    if c < 3 {
        let set = set_at(b, i);
        put_whole(b, set, cell, j, key, c, o);
        return;
    }
    if 4 < c {
        put_number(b, j, key, c);
        return;
    }
    let at = place_on(i, ch);
    if half_at(b, at) != 0 {
        met_half(b, cell, ch, j, i, key, c - 2, o);
        return;
    }
    if c == 4 {
        if !channels::leads(ch) {
            put_number(b, j, key, 8);
            return;
        }
    }
    lay(b, at, c - 2, tick, o);
    put_number(b, j, key, 4);
}

// The entry of a FACCH message that notifies a call. Its record is made only where its key is ours.
pub(crate) fn tell_facch(b: &mut [u8], cell: Cell, tick: u32, m: facch::Notification)
    requires { length b.old ≡ state_length }
    ensures { AllTold b.old cell 1 tick (facch_entry m ∷ []) b.new }
{
    let c = m.call;
    let key = meeting::key_of(c);
    let i = index_of(b, key);
    if Setup::KEYS <= i {
        put_number(b, 0, key, 0);
        return;
    }
    let e = messages::facch_entry(m);
    let class = meeting::class(channels::FACCH, e);
    let o = octets_of(e);
    ours(b, cell, channels::FACCH, tick, 0, i, key, class, &o);
}

// An entry of the PCH, likewise.
pub(crate) fn tell_pch(b: &mut [u8], cell: Cell, tick: u32, p: pch::Entry)
    requires { length b.old ≡ state_length }
    ensures { AllTold b.old cell 2 tick (pch_entries p) b.new }
{
    let c = p.call;
    let key = meeting::key_of(c);
    let i = index_of(b, key);
    if Setup::KEYS <= i {
        put_number(b, 0, key, 0);
        return;
    }
    let e = messages::pch_entry(p);
    let class = meeting::class(channels::PCH, e);
    let o = octets_of(e);
    ours(b, cell, channels::PCH, tick, 0, i, key, class, &o);
}

// The j-th entry of an NCH message, whose numbers stand at a place: told 0 where its key is not ours; its record is made only where it is. Calls and reduced references
// come through this one function, so that the compiler keeps it apart from the loops over them.
fn tell_numbers(
    b: &mut [u8],
    cell: Cell,
    tick: u32,
    j: usize,
    m: &[u64],
    full: bool,
    at: usize,
    random: usize,
    mark: usize,
)
    requires { (length b.old ≡ state_length) × ((j < most_entries) × (Fits m.now × ((random < most_randoms) × EntryFits m.now full at mark))) }
    ensures { Telling b.old cell 0 tick j (entry_from m.now full at random mark) b.new }
{
    let key = m[at] * 2 + m[at + 1];
    let i = index_of(b, key);
    if Setup::KEYS <= i {
        put_number(b, j, key, 0);
        return;
    }
    let e = entry_at(m, full, at, random, mark);
    let class = meeting::class(0, e);
    let o = octets_of(e);
    ours(b, cell, 0, tick, j, i, key, class, &o);
}

// All entries of an NCH message, calls then reduced references, from its numbers, and how many they are.
pub(crate) fn tell_nch(b: &mut [u8], cell: Cell, tick: u32, m: &[u64]) -> u32
    requires { (length b.old ≡ state_length) × Fits m.now }
    ensures { (result ≡ length (nch_entries (record_from m.now))) × AllTold b.old cell 0 tick (nch_entries (record_from m.now)) b.new }
{
    let n = (m[places::CALLS] as usize).min(places::MOST_CALLS);
    let count = n + (m[places::REDUCEDS] as usize).min(places::MOST_REDUCEDS);
    let mut random: usize = 0;
    let mut mark: usize = 0;
    'calls: for i in 0..n {
        let at = places::FIRST_CALL + places::CALL_LENGTH * i;
        tell_numbers(b, cell, tick, i, m, true, at, random, mark);
        random += (1 <= m[at + 4]) as usize;
        mark += m[at + 5] as usize;
    }
    'reduceds: for i in n..count {
        tell_numbers(
            b,
            cell,
            tick,
            i,
            m,
            false,
            places::FIRST_REDUCED + places::REDUCED_LENGTH * (i - n),
            random,
            mark,
        );
        random += 1;
    }
    count as u32
}
