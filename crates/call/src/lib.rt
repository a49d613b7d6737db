// Group Call information (44.018, 9.1.21a): one notified call, as both channels carry it.
#![tactic(auto)]

ghost use Rattle.std.specs.Prelude.{◌≡◌, ◌≤◌, ◌<◌, length};
ghost use Rattle.csn1.specs.Format.{bad};
ghost use Rattle.csn1.specs.Grammar.{format};
ghost use Rattle.csn1.specs.Told.{read_at_of};
ghost use Rattle.call.specs.Call.{group_call, description, frequencies, no_description, no_call};
ghost use Rattle.call.specs.Told.{call_at_of};
ghost use Rattle.call.specs.Inner.{description_at_of, frequencies_at_of, call_from_head, gathered, flat_from, not_quick, Quickly};

use bits::Got;
use csn1::Refusal;

pub mod writer;

// A Group Channel Description: the channel's 24 bits, whether it hops, and over which frequencies.
#[derive(Clone, Copy)]
pub struct Description {
    // Channel Description; its bit 11 says whether the channel hops.
    pub channel: u32,
    // The flag behind it, which says so too.
    pub hopping: bool,
    // A Frequency Short List where true, a Mobile Allocation where false.
    pub shortlist: bool,
    // The Mobile Allocation's octets, 1 to 8.
    pub length: u8,
    // Those octets, or the 64 bits of the short list, as one number.
    pub frequencies: u64,
}

#[derive(Clone, Copy)]
pub struct Call {
    pub reference: u32,
    // The service flag: VGCS where true, VBS where false.
    pub vgcs: bool,
    pub acknowledged: bool,
    pub priority: u8,
    // The cipher key number; the call is ciphered where it is not 0.
    pub cipher: u8,
    pub hasDescription: bool,
    pub description: Description,
}

// What reading one call gives: the call and the place behind it, or why not.
#[derive(Drop)]
pub struct CallAt {
    pub refusal: Refusal,
    pub call: Call,
    pub at: usize,
}

// The same of a description alone.
#[derive(Drop)]
struct DescriptionAt {
    refusal: Refusal,
    description: Description,
    at: usize,
}

// The same of the frequencies of a channel that hops.
#[derive(Drop)]
struct FrequenciesAt {
    refusal: Refusal,
    shortlist: bool,
    length: u8,
    frequencies: u64,
    at: usize,
}

fn no_frequencies(refusal: Refusal) -> FrequenciesAt
    ensures { result ≡ frequencies_at_of (bad refusal) }
{
    FrequenciesAt {
        refusal,
        shortlist: false,
        length: 0,
        frequencies: 0,
        at: 0,
    }
}

// Refusal 3 is given as soon as the length octet is in.
fn read_frequencies(s: &[u8], at: usize) -> FrequenciesAt
    requires { length s.now ≤ 4096 }
    ensures { result ≡ frequencies_at_of ((format frequencies).read s.now at) }
{
    let Got::Bits(branch) = bits::reader::field(s, at, 1) else {
        return no_frequencies(csn1::ran_out(at));
    };
    if branch != 0 {
        let Got::Bits(list) = bits::reader::field(s, at + 1, 64) else {
            return no_frequencies(csn1::ran_out(at + 1));
        };
        return FrequenciesAt {
            refusal: csn1::no_refusal(),
            shortlist: true,
            length: 0,
            frequencies: list,
            at: at + 65,
        };
    }
    let Got::Bits(length) = bits::reader::field(s, at + 1, 8) else {
        return no_frequencies(csn1::ran_out(at + 1));
    };
    if length < 1 {
        return no_frequencies(csn1::ground(3));
    }
    if 8 < length {
        return no_frequencies(csn1::ground(3));
    }
    let width = 8 * length as usize;
    let Got::Bits(octets) = bits::reader::field(s, at + 9, width) else {
        return no_frequencies(csn1::ran_out(at + 9));
    };
    FrequenciesAt {
        refusal: csn1::no_refusal(),
        shortlist: false,
        length: length as u8,
        frequencies: octets,
        at: at + 9 + width,
    }
}

// No description, as an absent one is told.
pub fn no_description() -> Description
    ensures { result ≡ no_description }
{
    Description {
        channel: 0,
        hopping: false,
        shortlist: false,
        length: 0,
        frequencies: 0,
    }
}

fn refused_description(refusal: Refusal) -> DescriptionAt
    ensures { result ≡ description_at_of (bad refusal) }
{
    DescriptionAt {
        refusal,
        description: no_description(),
        at: 0,
    }
}

// Refusal 5 is given right behind the hopping flag.
fn read_description(s: &[u8], at: usize) -> DescriptionAt
    requires { length s.now ≤ 4096 }
    ensures { result ≡ description_at_of ((format description).read s.now at) }
{
    let Got::Bits(channel) = bits::reader::field(s, at, 24) else {
        return refused_description(csn1::ran_out(at));
    };
    let Got::Bits(flag) = bits::reader::field(s, at + 24, 1) else {
        return refused_description(csn1::ran_out(at + 24));
    };
    if channel / 4096 % 2 != flag {
        return refused_description(csn1::ground(5));
    }
    if flag == 0 {
        return DescriptionAt {
            refusal: csn1::no_refusal(),
            description: Description {
                channel: channel as u32,
                hopping: false,
                shortlist: false,
                length: 0,
                frequencies: 0,
            },
            at: at + 25,
        };
    }
    let f = read_frequencies(s, at + 25);
    if f.refusal.number != 0 {
        return refused_description(f.refusal);
    }
    DescriptionAt {
        refusal: csn1::no_refusal(),
        description: Description {
            channel: channel as u32,
            hopping: true,
            shortlist: f.shortlist,
            length: f.length,
            frequencies: f.frequencies,
        },
        at: f.at,
    }
}

// No call, as an unused place is told.
pub fn no_call() -> Call
    ensures { result ≡ no_call }
{
    Call {
        reference: 0,
        vgcs: false,
        acknowledged: false,
        priority: 0,
        cipher: 0,
        hasDescription: false,
        description: no_description(),
    }
}

fn refused_call(refusal: Refusal) -> CallAt
    ensures { result ≡ call_at_of (bad refusal) }
{
    CallAt {
        refusal,
        call: no_call(),
        at: 0,
    }
}

// The call from its 36 bits and its description.
fn call_from(head: u64, described: bool, description: Description) -> Call
    requires { head < 68719476736 }
    ensures { result ≡ call_from_head head described description }
{
    Call {
        reference: (head / 512) as u32,
        vgcs: head / 256 % 2 == 1,
        acknowledged: head / 128 % 2 == 1,
        priority: (head / 16 % 8) as u8,
        cipher: (head % 16) as u8,
        hasDescription: described,
        description,
    }
}

// One call of a message, a field at a time. Refusal 4 is given right behind the 36 bits.
fn read_steps(s: &[u8], at: usize) -> CallAt
    ensures { result ≡ call_at_of (read_at_of group_call s.now at) }
{
    if csn1::LONGEST < s.len() {
        return refused_call(csn1::ran_out(at));
    }
    let Got::Bits(head) = bits::reader::field(s, at, 36) else {
        return refused_call(csn1::ran_out(at));
    };
    if 99999999 < head / 512 {
        return refused_call(csn1::ground(4));
    }
    let Got::Bits(flag) = bits::reader::field(s, at + 36, 1) else {
        return refused_call(csn1::ran_out(at + 36));
    };
    if flag == 0 {
        return CallAt {
            refusal: csn1::no_refusal(),
            call: call_from(head, false, no_description()),
            at: at + 37,
        };
    }
    let d = read_description(s, at + 37);
    if d.refusal.number != 0 {
        return refused_call(d.refusal);
    }
    let description = d.description;
    CallAt {
        refusal: csn1::no_refusal(),
        call: call_from(head, true, description),
        at: d.at,
    }
}

// A call and the place behind it with nothing inside another: the ways to it meet in plain numbers, and the call is made once.
#[derive(Drop)]
struct Flat {
    refusal: Refusal,
    reference: u32,
    vgcs: bool,
    acknowledged: bool,
    priority: u8,
    cipher: u8,
    hasDescription: bool,
    channel: u32,
    hopping: bool,
    shortlist: bool,
    length: u8,
    frequencies: u64,
    at: usize,
}

// The way a field at a time.
fn flat_steps(s: &[u8], at: usize) -> Flat
    ensures { gathered result ≡ call_at_of (read_at_of group_call s.now at) }
{
    let c = read_steps(s, at);
    let refusal = c.refusal;
    Flat {
        refusal,
        reference: c.call.reference,
        vgcs: c.call.vgcs,
        acknowledged: c.call.acknowledged,
        priority: c.call.priority,
        cipher: c.call.cipher,
        hasDescription: c.call.hasDescription,
        channel: c.call.description.channel,
        hopping: c.call.description.hopping,
        shortlist: c.call.description.shortlist,
        length: c.call.description.length,
        frequencies: c.call.description.frequencies,
        at: c.at,
    }
}

// A call that does not hop, from its 37 bits: the reference's 36 and the flag behind them.
fn fixed(led: u64, described: bool, channel: u32, at: usize) -> Flat
    requires { led < 137438953472 }
    ensures { result ≡ flat_from led described channel at }
{
    Flat {
        refusal: csn1::no_refusal(),
        reference: (led / 1024) as u32,
        vgcs: led / 512 % 2 == 1,
        acknowledged: led / 256 % 2 == 1,
        priority: (led / 32 % 8) as u8,
        cipher: (led / 2 % 16) as u8,
        hasDescription: described,
        channel,
        hopping: false,
        shortlist: false,
        length: 0,
        frequencies: 0,
        at,
    }
}

// What one or two fetches found: a call that does not hop, or that it is not done so.
#[derive(Drop)]
struct Quick {
    done: bool,
    led: u64,
    hasDescription: bool,
    channel: u32,
    at: usize,
}

fn not_quick() -> Quick
    ensures { result ≡ not_quick }
{
    Quick {
        done: false,
        led: 0,
        hasDescription: false,
        channel: 0,
        at: 0,
    }
}

// A call with no description, or on a channel that does not hop; any other, and every refusal, is not done.
fn read_quick(s: &[u8], at: usize) -> Quick
    ensures { Quickly result (read_at_of group_call s.now at) }
{
    if csn1::LONGEST < s.len() {
        return not_quick();
    }
    let Got::Bits(led) = bits::reader::field(s, at, 37) else {
        return not_quick();
    };
    if 99999999 < led / 1024 {
        return not_quick();
    }
    if led % 2 == 0 {
        return Quick {
            done: true,
            led,
            hasDescription: false,
            channel: 0,
            at: at + 37,
        };
    }
    let Got::Bits(channel) = bits::reader::field(s, at + 37, 25) else {
        return not_quick();
    };
    if channel % 2 != 0 {
        return not_quick();
    }
    if channel / 8192 % 2 != 0 {
        return not_quick();
    }
    Quick {
        done: true,
        led,
        hasDescription: true,
        channel: (channel / 2) as u32,
        at: at + 62,
    }
}

// By one or two fetches where that does, else a field at a time. Each way is called once, so that the compiler keeps the fields in registers.
fn read_flat(s: &[u8], at: usize) -> Flat
    ensures { gathered result ≡ call_at_of (read_at_of group_call s.now at) }
{
    let q = read_quick(s, at);
    if q.done {
        return fixed(q.led, q.hasDescription, q.channel, q.at);
    }
    flat_steps(s, at)
}

// One call of a message, at any place.
pub fn read(s: &[u8], at: usize) -> CallAt
    ensures { result ≡ call_at_of (read_at_of group_call s.now at) }
{
    let p = read_flat(s, at);
    let refusal = p.refusal;
    CallAt {
        refusal,
        call: Call {
            reference: p.reference,
            vgcs: p.vgcs,
            acknowledged: p.acknowledged,
            priority: p.priority,
            cipher: p.cipher,
            hasDescription: p.hasDescription,
            description: Description {
                channel: p.channel,
                hopping: p.hopping,
                shortlist: p.shortlist,
                length: p.length,
                frequencies: p.frequencies,
            },
        },
        at: p.at,
    }
}
