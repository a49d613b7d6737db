// CSN.1: formats of bits. Their meaning stands in specs/, the one theorem over all of them in proofs/; the code is what readers of every format share.
#![tactic(auto)]

ghost use Rattle.std.specs.Prelude.{◌≡◌};
ghost use Rattle.csn1.specs.Format.{bad, ran_out, ground, no_refusal, renumbered, pad_bit, coded};
ghost use Rattle.csn1.specs.Told.{read_at_of, flagged_at, lead_at, flagged_of, lead_of, coded_of, code_of};

use bits::Got;

pub mod writer;

// The longest message that is read, in octets: ours have at most 255. A longer one is answered as if its bits had run out.
pub const LONGEST: usize = 4096;

// Why a reading ended: its number, 0 where nothing was refused, and of bits that ran out the place where their field begins.
#[derive(Clone, Copy)]
pub struct Refusal {
    pub number: u8,
    pub bit: usize,
}

// Nothing is refused.
pub fn no_refusal() -> Refusal
    ensures { result ≡ no_refusal }
{
    Refusal { number: 0, bit: 0 }
}

// The bits of the field that begins at `at` ran out.
pub fn ran_out(at: usize) -> Refusal
    ensures { result ≡ ran_out at }
{
    Refusal { number: 2, bit: at }
}

// A test was not met.
pub fn ground(number: u8) -> Refusal
    ensures { result ≡ ground number }
{
    Refusal { number, bit: 0 }
}

// Inside a later release, bits that ran out have its number.
pub fn inside(number: u8, refusal: Refusal) -> Refusal
    ensures { result ≡ renumbered number refusal }
{
    if refusal.number == 2 {
        return Refusal {
            number,
            bit: refusal.bit,
        };
    }
    refusal
}

// A refusal as C functions return it: its number in the low octet, and its bit above it.
pub fn code(refusal: Refusal) -> u32
    ensures { result ≡ code_of refusal }
{
    refusal.number as u32 + 256 * (refusal.bit % 16777216) as u32
}

// The padding bit at a place: that of octet 2B hex.
pub fn padding_bit(at: usize) -> u64
    ensures { result ≡ pad_bit at }
{
    let below = 7 - at % 8;
    (43u64 >> below) % 2
}

// A number led by a flag, and the place behind it.
#[derive(Drop)]
pub struct Flagged {
    pub refusal: Refusal,
    pub hasValue: bool,
    pub value: u64,
    pub at: usize,
}

fn no_number(refusal: Refusal) -> Flagged
    ensures { result ≡ flagged_of (bad refusal) }
{
    Flagged {
        refusal,
        hasValue: false,
        value: 0,
        at: 0,
    }
}

// { 0 | 1 < number : bit (width) > }
pub fn read_flagged(s: &[u8], at: usize, width: usize) -> Flagged
    ensures { result ≡ flagged_of (flagged_at s.now at width) }
{
    if 64 < width {
        return no_number(ran_out(at));
    }
    if LONGEST < s.len() {
        return no_number(ran_out(at));
    }
    let Got::Bits(flag) = bits::reader::field(s, at, 1) else {
        return no_number(ran_out(at));
    };
    if flag == 0 {
        return Flagged {
            refusal: no_refusal(),
            hasValue: false,
            value: 0,
            at: at + 1,
        };
    }
    let Got::Bits(value) = bits::reader::field(s, at + 1, width) else {
        return no_number(ran_out(at + 1));
    };
    Flagged {
        refusal: no_refusal(),
        hasValue: true,
        value,
        at: at + 1 + width,
    }
}

// Whether an L/H bit is H, and the place behind it.
#[derive(Drop)]
pub struct Lead {
    pub refusal: Refusal,
    pub high: bool,
    pub at: usize,
}

fn no_lead(refusal: Refusal) -> Lead
    ensures { result ≡ lead_of (bad refusal) }
{
    Lead {
        refusal,
        high: false,
        at: 0,
    }
}

// An L/H-coded bit.
pub fn read_coded(s: &[u8], at: usize) -> Lead
    ensures { result ≡ coded_of (read_at_of coded s.now at) }
{
    if LONGEST < s.len() {
        return no_lead(ran_out(at));
    }
    let Got::Bits(b) = bits::reader::field(s, at, 1) else {
        return no_lead(ran_out(at));
    };
    Lead {
        refusal: no_refusal(),
        high: b != padding_bit(at),
        at: at + 1,
    }
}

// { null | L | H
pub fn read_lead(s: &[u8], at: usize) -> Lead
    ensures { result ≡ lead_of (lead_at s.now at) }
{
    if LONGEST < s.len() {
        return no_lead(ran_out(at));
    }
    if at == s.len() * 8 {
        return Lead {
            refusal: no_refusal(),
            high: false,
            at,
        };
    }
    read_coded(s, at)
}
