// What writers ask of a call, and the call as bits.
ghost use Rattle.std.specs.Prelude.{◌≡◌, ◌+◌, ◌*◌, leb};
ghost use Rattle.bits.specs.Field.{both};
ghost use Rattle.csn1.specs.Format.{put_bits};
ghost use Rattle.csn1.specs.Grammar.{format};
ghost use Rattle.call.specs.Call.{frequencies, description, frequencies_of, description_value};
ghost use Rattle.call.specs.Write.{call_in_range, call_is_zero, call_is_low, call_length_right, call_hops_right, description_is_zero, frequencies_in_range, call_size, can_put_call, after_put_call};
ghost use Rattle.call.specs.Inner.{head_number, Room};

use crate::{Call, Description};

// Refusal 12 is not due: every field is within its bits, and what is absent is zero.
pub fn in_range(c: Call) -> bool
    ensures { result ≡ call_in_range c }
{
    if 134217727 < c.reference {
        return false;
    }
    if 7 < c.priority {
        return false;
    }
    if 15 < c.cipher {
        return false;
    }
    let d = c.description;
    if !c.hasDescription {
        return description_is_zero(d);
    }
    if 16777215 < d.channel {
        return false;
    }
    frequencies_in_range(d.hopping, d.shortlist, d.length, d.frequencies)
}

fn frequencies_in_range(hopping: bool, shortlist: bool, length: u8, frequencies: u64) -> bool
    ensures { result ≡ frequencies_in_range hopping shortlist length frequencies }
{
    if !hopping {
        if shortlist {
            return false;
        }
        if length != 0 {
            return false;
        }
        return frequencies == 0;
    }
    if shortlist {
        return length == 0;
    }
    if 7 < length {
        return true;
    }
    frequencies >> (8 * length) == 0
}

fn description_is_zero(d: Description) -> bool
    ensures { result ≡ description_is_zero d }
{
    if d.channel != 0 {
        return false;
    }
    if d.hopping {
        return false;
    }
    if d.shortlist {
        return false;
    }
    if d.length != 0 {
        return false;
    }
    d.frequencies == 0
}

// An unused place.
pub fn is_zero(c: Call) -> bool
    ensures { result ≡ call_is_zero c }
{
    if c.reference != 0 {
        return false;
    }
    if c.vgcs {
        return false;
    }
    if c.acknowledged {
        return false;
    }
    if c.priority != 0 {
        return false;
    }
    if c.cipher != 0 {
        return false;
    }
    if c.hasDescription {
        return false;
    }
    let d = c.description;
    description_is_zero(d)
}

// Refusal 4 is not due.
pub fn is_low(c: Call) -> bool
    ensures { result ≡ call_is_low c }
{
    c.reference <= 99999999
}

// Refusal 3 is not due.
pub fn length_right(c: Call) -> bool
    ensures { result ≡ call_length_right c }
{
    if !c.hasDescription {
        return true;
    }
    if !c.description.hopping {
        return true;
    }
    if c.description.shortlist {
        return true;
    }
    if c.description.length < 1 {
        return false;
    }
    c.description.length <= 8
}

// Refusal 5 is not due.
pub fn hops_right(c: Call) -> bool
    ensures { result ≡ call_hops_right c }
{
    if !c.hasDescription {
        return true;
    }
    let bit = c.description.channel / 4096 % 2;
    if c.description.hopping {
        return bit == 1;
    }
    bit == 0
}

// How many bits the call takes.
pub fn size(c: Call) -> usize
    ensures { result ≡ call_size c }
{
    if !c.hasDescription {
        return 37;
    }
    if !c.description.hopping {
        return 62;
    }
    if c.description.shortlist {
        return 127;
    }
    71 + 8 * c.description.length as usize
}

// Refusals 12, 4, 3 and 5 are not due.
fn is_right(c: Call) -> bool
    ensures { result ≡ both (call_in_range c) (both (call_is_low c) (both (call_length_right c) (call_hops_right c))) }
{
    if !in_range(c) {
        return false;
    }
    if !is_low(c) {
        return false;
    }
    if !length_right(c) {
        return false;
    }
    hops_right(c)
}

// Whether n octets, not too many, have the bits from at on.
fn has_room(n: usize, at: usize, bits: usize) -> bool
    ensures { result ≡ both (leb n 4096) (leb (at + bits) (n * 8)) }
{
    if csn1::LONGEST < n {
        return false;
    }
    if n * 8 < at {
        return false;
    }
    bits <= n * 8 - at
}

// The Group Call Reference's 36 bits and the flag behind them, as one number.
fn head(c: Call) -> u64
    ensures { result ≡ head_number c }
{
    let call = c.reference as u64 * 4 + c.vgcs as u64 * 2 + c.acknowledged as u64;
    call * 256 + c.priority as u64 * 32 + c.cipher as u64 * 2 + c.hasDescription as u64
}

// { 0 < Mobile Allocation > | 1 < Frequency Short List >}
fn put_frequencies(buf: &mut [u8], at: usize, d: Description)
    requires { Room (format frequencies) (frequencies_of d) buf.old at }
    ensures { buf.new ≡ put_bits buf.old at ((format frequencies).bits 0 0 (frequencies_of d)) }
{
    if d.shortlist {
        bits::put(&mut *buf, at, 1, 1);
        bits::put(&mut *buf, at + 1, 64, d.frequencies);
        return;
    }
    // The 0 and the length octet.
    bits::put(&mut *buf, at, 9, d.length as u64);
    bits::put(&mut *buf, at + 9, 8 * d.length as usize, d.frequencies);
}

fn put_description(buf: &mut [u8], at: usize, d: Description)
    requires { Room (format description) (description_value d) buf.old at }
    ensures { buf.new ≡ put_bits buf.old at ((format description).bits 0 0 (description_value d)) }
{
    bits::put(&mut *buf, at, 25, d.channel as u64 * 2 + d.hopping as u64);
    if d.hopping {
        put_frequencies(&mut *buf, at + 25, d);
    }
}

// Puts the call's bits from at on; where it cannot be written, or the octets end before, it says false and touches nothing.
pub fn put(buf: &mut [u8], at: usize, c: Call) -> bool
    ensures { (result ≡ can_put_call buf.old at c) × (buf.new ≡ after_put_call buf.old at c) }
{
    if !is_right(c) {
        return false;
    }
    if !has_room(buf.len(), at, size(c)) {
        return false;
    }
    bits::put(&mut *buf, at, 37, head(c));
    if c.hasDescription {
        let d = c.description;
        put_description(&mut *buf, at + 37, d);
    }
    true
}
