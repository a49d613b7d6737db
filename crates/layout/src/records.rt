// A record in octets: in those of a state, and in octets of its own, by which events hand it on. A struct of so many flags would be copied again and again, each time behind stores of single octets.
ghost use Rattle.std.specs.Prelude.{◌≡◌, [], ◌∷◌, ◌++◌, ◌+◌, ◌≤◌, length, replicate};
ghost use Rattle.csn1.specs.Told.{as_bit};
ghost use Rattle.arrays.specs.Runs.{stored};
ghost use Rattle.layout.specs.Octets.{le_at, low_octets};
ghost use Rattle.layout.specs.Layout.{record_size, record_at, entry_flags, message_flags, small_numbers, wide_octets, record_octets};

use crate::RECORD_LENGTH;
use crate::octets::{flag_at, put_u32, put_u64, u32_at, u64_at};
use call::{Call, Description};
use receiver::{Common, Record};

fn description_at(b: &[u8], at: usize) -> Description
    requires { at + record_size ≤ length b.now }
    ensures { result ≡ (record_at b.now at).call.description }
{
    Description {
        channel: u32_at(b, at + 4),
        hopping: flag_at(b, at + 28),
        shortlist: flag_at(b, at + 29),
        length: b[at + 46],
        frequencies: u64_at(b, at + 8),
    }
}

fn call_at(b: &[u8], at: usize) -> Call
    requires { at + record_size ≤ length b.now }
    ensures { result ≡ (record_at b.now at).call }
{
    Call {
        reference: u32_at(b, at),
        vgcs: flag_at(b, at + 25),
        acknowledged: flag_at(b, at + 26),
        priority: b[at + 44],
        cipher: b[at + 45],
        hasDescription: flag_at(b, at + 27),
        description: description_at(b, at),
    }
}

fn common_at(b: &[u8], at: usize) -> Common
    requires { at + record_size ≤ length b.now }
    ensures { result ≡ (record_at b.now at).common }
{
    Common {
        hasCount: flag_at(b, at + 34),
        cellcount: b[at + 47],
        b22: flag_at(b, at + 35),
        hasUplink: flag_at(b, at + 36),
        uplink: flag_at(b, at + 37),
        hasAmr: flag_at(b, at + 38),
        hasFullrate: flag_at(b, at + 39),
        fullrate: b[at + 48],
        hasHalfrate: flag_at(b, at + 40),
        halfrate: b[at + 49],
        hasSms: flag_at(b, at + 41),
        confidential: flag_at(b, at + 42),
        private: flag_at(b, at + 43),
    }
}

pub(crate) fn record_at(b: &[u8], at: usize) -> Record
    requires { at + record_size ≤ length b.now }
    ensures { result ≡ record_at b.now at }
{
    Record {
        full: flag_at(b, at + 24),
        call: call_at(b, at),
        hasSegment: flag_at(b, at + 30),
        segment: flag_at(b, at + 31),
        hasRandom: flag_at(b, at + 32),
        rand: u64_at(b, at + 16),
        emergency: flag_at(b, at + 33),
        common: common_at(b, at),
    }
}

// Five flags, one octet each.
fn put_flags(b: &mut [u8], at: usize, p: bool, q: bool, r: bool, s: bool, t: bool)
    requires { at + 5 ≤ length b.old }
    ensures { b.new ≡ stored b.old at (as_bit p ∷ as_bit q ∷ as_bit r ∷ as_bit s ∷ as_bit t ∷ []) }
{
    b[at] = p as u8;
    b[at + 1] = q as u8;
    b[at + 2] = r as u8;
    b[at + 3] = s as u8;
    b[at + 4] = t as u8;
}

// The six small numbers, and six octets that stay zero.
fn put_small(b: &mut [u8], at: usize, r: Record)
    requires { at + 12 ≤ length b.old }
    ensures { b.new ≡ stored b.old at (small_numbers r ++ replicate 6 0) }
{
    b[at] = r.call.priority;
    b[at + 1] = r.call.cipher;
    b[at + 2] = r.call.description.length;
    b[at + 3] = r.common.cellcount;
    b[at + 4] = r.common.fullrate;
    b[at + 5] = r.common.halfrate;
    b[at + 6] = 0;
    b[at + 7] = 0;
    put_u32(b, at + 8, 0);
}

// The four numbers of more than one octet.
fn put_wide(b: &mut [u8], at: usize, r: Record)
    requires { at + 24 ≤ length b.old }
    ensures { b.new ≡ stored b.old at (wide_octets r) }
{
    put_u32(b, at, r.call.reference);
    put_u32(b, at + 4, r.call.description.channel);
    put_u64(b, at + 8, r.call.description.frequencies);
    put_u64(b, at + 16, r.rand);
}

// The flags of an entry, and those of its message.
fn put_entry(b: &mut [u8], at: usize, r: Record)
    requires { at + 10 ≤ length b.old }
    ensures { b.new ≡ stored b.old at (entry_flags r) }
{
    let c = r.call;
    let d = c.description;
    put_flags(
        b,
        at,
        r.full,
        c.vgcs,
        c.acknowledged,
        c.hasDescription,
        d.hopping,
    );
    put_flags(
        b,
        at + 5,
        d.shortlist,
        r.hasSegment,
        r.segment,
        r.hasRandom,
        r.emergency,
    );
}

fn put_message(b: &mut [u8], at: usize, r: Record)
    requires { at + 10 ≤ length b.old }
    ensures { b.new ≡ stored b.old at (message_flags r) }
{
    let m = r.common;
    put_flags(b, at, m.hasCount, m.b22, m.hasUplink, m.uplink, m.hasAmr);
    put_flags(
        b,
        at + 5,
        m.hasFullrate,
        m.hasHalfrate,
        m.hasSms,
        m.confidential,
        m.private,
    );
}

pub(crate) fn put_record(b: &mut [u8], at: usize, r: Record)
    requires { at + record_size ≤ length b.old }
    ensures { b.new ≡ stored b.old at (record_octets r) }
{
    put_wide(b, at, r);
    put_entry(b, at + 24, r);
    put_message(b, at + 34, r);
    put_small(b, at + 44, r);
}

// Four flags as a number, so that one store puts them.
fn four_flags(p: bool, q: bool, r: bool, s: bool) -> u32
    ensures { low_octets 4 result ≡ as_bit p ∷ as_bit q ∷ as_bit r ∷ as_bit s ∷ [] }
{
    p as u32 + (q as u32 + (r as u32 + s as u32 * 256) * 256) * 256
}

// Four octets, likewise.
fn four(p: u8, q: u8, r: u8, s: u8) -> u32
    ensures { low_octets 4 result ≡ p ∷ q ∷ r ∷ s ∷ [] }
{
    p as u32 + (q as u32 + (r as u32 + s as u32 * 256) * 256) * 256
}

// A record as octets of its own. Its parts are put one by one: by functions of a record it would go through memory.
pub fn octets_of(r: Record) -> [u8; RECORD_LENGTH]
    ensures { result ≡ record_octets r }
{
    let c = r.call;
    let d = c.description;
    let m = r.common;
    let entry = four_flags(r.full, c.vgcs, c.acknowledged, c.hasDescription);
    let channel = four_flags(d.hopping, d.shortlist, r.hasSegment, r.segment);
    let random = four_flags(r.hasRandom, r.emergency, m.hasCount, m.b22);
    let uplink = four_flags(m.hasUplink, m.uplink, m.hasAmr, m.hasFullrate);
    let sms = four_flags(m.hasHalfrate, m.hasSms, m.confidential, m.private);
    let small = four(c.priority, c.cipher, d.length, m.cellcount);
    let rates = four(m.fullrate, m.halfrate, 0, 0);
    let mut o = [0u8; RECORD_LENGTH];
    put_u32(&mut o, 0, c.reference);
    put_u32(&mut o, 4, d.channel);
    put_u64(&mut o, 8, d.frequencies);
    put_u64(&mut o, 16, r.rand);
    put_u32(&mut o, 24, entry);
    put_u32(&mut o, 28, channel);
    put_u32(&mut o, 32, random);
    put_u32(&mut o, 36, uplink);
    put_u32(&mut o, 40, sms);
    put_u32(&mut o, 44, small);
    put_u32(&mut o, 48, rates);
    put_u32(&mut o, 52, 0);
    o
}

// The record that such octets are read as.
pub fn record_in(o: &[u8; RECORD_LENGTH]) -> Record
    ensures { result ≡ record_at o.now 0 }
{
    record_at(o, 0)
}

// Eight octets, put at a place.
fn put_eight(b: &mut [u8], at: usize, o: &[u8], from: usize)
    requires { (at + 8 ≤ length b.old) × (from + 8 ≤ length o.now) }
    ensures { b.new ≡ stored b.old at (low_octets 8 (le_at 8 o.now from)) }
{
    put_u64(b, at, u64_at(o, from));
}

// All octets of a record.
pub(crate) fn put_octets(b: &mut [u8], at: usize, o: &[u8])
    requires { (at + record_size ≤ length b.old) × (length o.now ≡ record_size) }
    ensures { b.new ≡ stored b.old at o.now }
{
    put_eight(b, at, o, 0);
    put_eight(b, at + 8, o, 8);
    put_eight(b, at + 16, o, 16);
    put_eight(b, at + 24, o, 24);
    put_eight(b, at + 32, o, 32);
    put_eight(b, at + 40, o, 40);
    put_eight(b, at + 48, o, 48);
}
