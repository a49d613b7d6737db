// Octets as bits: a field is fetched and put by octets, never bit by bit. Bit 0 is the top bit of the first octet.
#![tactic(auto)]

ghost use Rattle.std.specs.Prelude.{◌≡◌, ◌+◌, ◌*◌, ◌/◌, ◌%◌, ◌≤◌, ◌<◌, ◌^◌, min, leb, ltb, length};
ghost use Rattle.bits.specs.Field.{both, field, set_field, fetched, can_put, after_put};

pub mod reader;

// What a fetch finds: the number in the bits, or that the bits ran out.
#[derive(Drop)]
pub enum Got {
    Bits(u64),
    Short,
}

// An octet as a wider number.
fn wide(o: u8) -> u64
    ensures { result ≡ o }
{
    o as u64
}

// The smaller of two numbers.
pub fn least(a: usize, b: usize) -> usize
    ensures { result ≡ min a b }
{
    if b < a { b } else { a }
}

// Two, four and eight octets as one number, the first of them the highest. With the lower part first in each sum, the compiler makes one load of the eight.
fn two(s: &[u8], i: usize) -> u64
    requires { i + 2 ≤ length s.now }
    ensures { result ≡ field s.now (i * 8) 16 }
{
    wide(s[i + 1]) + wide(s[i]) * 256
}

fn four(s: &[u8], i: usize) -> u64
    requires { i + 4 ≤ length s.now }
    ensures { result ≡ field s.now (i * 8) 32 }
{
    two(s, i + 2) + two(s, i) * 65536
}

fn eight(s: &[u8], i: usize) -> u64
    requires { i + 8 ≤ length s.now }
    ensures { result ≡ field s.now (i * 8) 64 }
{
    four(s, i + 4) + four(s, i) * 4294967296
}

// All octets of a slice that has fewer than eight, as one number.
fn fewer(s: &[u8]) -> u64
    requires { length s.now < 8 }
    ensures { result ≡ field s.now 0 (length s.now * 8) }
{
    let mut v: u64 = 0;
    let mut i: usize = 0;
    while i < s.len() {
        v = wide(s[i]) + v * 256;
        i += 1;
    }
    v
}

// The field of a slice that has it: a window of eight octets, shifted, and the ninth octet where the field reaches into it.
fn window(s: &[u8], at: usize, width: usize) -> u64
    requires { (0 < width) × ((width ≤ 64) × (at + width ≤ length s.now * 8)) }
    ensures { result ≡ field s.now at width }
{
    let n = s.len();
    if n < 8 {
        return (fewer(s) << (64 - n * 8 + at)) >> (64 - width);
    }
    let start = least(at / 8, n - 8);
    let place = at - start * 8;
    let v = (eight(s, start) << place) >> (64 - width);
    if place + width <= 64 {
        return v;
    }
    v + wide(s[start + 8] >> (72 - place - width))
}

// Whether n octets have the width bits from at on, at most 64 of them; no sum wraps, however large at is.
fn within(n: usize, at: usize, width: usize) -> bool
    ensures { result ≡ both (leb width 64) (leb (at + width) (n * 8)) }
{
    if 64 < width {
        return false;
    }
    if n < at / 8 {
        return false;
    }
    if n - at / 8 < (at % 8 + width + 7) / 8 {
        return false;
    }
    true
}

// The bit at a place: its octet alone is looked at.
fn fetch_bit(s: &[u8], at: usize) -> Got
    ensures { result ≡ fetched s.now at 1 }
{
    let i = at / 8;
    if i < s.len() {
        return Got::Bits((wide(s[i]) >> (7 - at % 8)) % 2);
    }
    Got::Short
}

// A field that the eight octets from its first on have whole. The test asks all of them, so that the compiler keeps them as one load.
fn ahead(s: &[u8], at: usize, width: usize) -> u64
    requires { (0 < width) × ((width ≤ 57) × (at / 8 + 8 ≤ length s.now)) }
    ensures { result ≡ field s.now at width }
{
    let v = eight(s, at / 8);
    if v == 0 {
        return 0;
    }
    (v << (at % 8)) >> (64 - width)
}

// The number in the width bits from at on, wherever they are and however many.
fn fetch_any(s: &[u8], at: usize, width: usize) -> Got
    ensures { result ≡ fetched s.now at width }
{
    if !within(s.len(), at, width) {
        return Got::Short;
    }
    if width == 0 {
        return Got::Bits(0);
    }
    Got::Bits(window(s, at, width))
}

// The number in the width bits from at on, for any place and width. The usual fields, a bit or what eight octets ahead have, are quick.
pub fn fetch(s: &[u8], at: usize, width: usize) -> Got
    ensures { result ≡ fetched s.now at width }
{
    if width == 1 {
        return fetch_bit(s, at);
    }
    if width < 1 {
        return fetch_any(s, at, width);
    }
    if 57 < width {
        return fetch_any(s, at, width);
    }
    if at / 8 + 8 <= s.len() {
        return Got::Bits(ahead(s, at, width));
    }
    fetch_any(s, at, width)
}

// The octet o with part in the take bits that end above its lowest `below` bits.
fn merged(o: u8, below: usize, take: usize, part: u64) -> u8
    requires { (below + take ≤ 8) × (part < 2 ^ take) }
    ensures { result ≡ (o / 2 ^ (below + take) * 2 ^ take + part) * 2 ^ below + o % 2 ^ below }
{
    let w = wide(o);
    let high = w >> (below + take) << take;
    let low = w % (1u64 << below);
    (((high + part) << below) + low) as u8
}

// The octets of a field that begins at bit `skip` of octet `first`, at most nine of them.
fn put_octets(buf: &mut [u8], first: usize, skip: usize, width: usize, v: u64)
    requires { (skip < 8) × ((width ≤ 64) × (first * 8 + skip + width ≤ length buf.old * 8)) }
    ensures { buf.new ≡ set_field buf.old (first * 8 + skip) width v }
{
    let mut done: usize = 0;
    while done < width {
        let pos = skip + done;
        let i = first + pos / 8;
        let room = 8 - pos % 8;
        let left = width - done;
        let take = least(room, left);
        let part = (v >> (left - take)) % (1u64 << take);
        buf[i] = merged(buf[i], room - take, take, part);
        done += take;
    }
}

// Whether width bits hold the number v.
fn holds(width: usize, v: u64) -> bool
    requires { width ≤ 64 }
    ensures { result ≡ ltb v (2 ^ width) }
{
    if width == 64 {
        return true;
    }
    v >> width == 0
}

// Puts the number v into the width bits from at on, octet by octet; where they are not there, or do not hold v, it says false and touches nothing.
pub fn put(buf: &mut [u8], at: usize, width: usize, v: u64) -> bool
    ensures { (result ≡ can_put buf.old at width v) × (buf.new ≡ after_put buf.old at width v) }
{
    if !within(buf.len(), at, width) {
        return false;
    }
    if !holds(width, v) {
        return false;
    }
    put_octets(&mut *buf, at / 8, at % 8, width, v);
    true
}
