// The information elements of group call control (44.068, clause 9), a module for each, and the steps on octets that they share.
#![tactic(auto)]

ghost use Rattle.std.specs.Prelude.{◌≡◌, ◌+◌, ◌≤◌, ◌<◌, ◌^◌, length};
ghost use Rattle.gcc.specs.Octet.{is_set, unit, all_between};
ghost use Rattle.gcc.specs.Inner.{copied};
ghost use Rattle.gcc.specs.Numeral.{worth, spell, Spells};

pub mod call_reference;
pub mod call_state;
pub mod cause;
pub mod digits;
pub mod message_type;
pub mod originator;
pub mod sms;
pub mod state_attributes;
pub mod talker;

// Whether bit n is set: bit 8 is the highest of an octet, bit 1 the lowest.
fn is_set(octet: u8, n: u8) -> bool
    requires { (0 < n) × (n ≤ 8) }
    ensures { result ≡ is_set n octet }
{
    (octet >> (n - 1)) % 2 == 1
}

// A bit as a number.
fn one_if(b: bool) -> u8
    ensures { (result ≡ unit b) × (result ≤ 1) }
{
    if b { 1 } else { 0 }
}

// An octet as a wider number.
fn wide(octet: u8) -> u64
    ensures { result ≡ octet }
{
    octet as u64
}

// The number that digits spell in a base, the highest first; nought is the octet that stands for 0.
fn worth_of(s: &[u8], base: u64, nought: u8) -> u64
    requires { (base ^ length s.now ≤ 2 ^ 64) × Spells base nought s.now }
    ensures { result ≡ worth base nought 0 s.now }
{
    let mut n: u64 = 0;
    let mut i: usize = 0;
    while i < s.len() {
        n = n * base + wide(s[i] - nought);
        i += 1;
    }
    n
}

// Fills the octets with a number, the highest first.
fn put(octets: &mut [u8], n: u64)
    ensures { octets.new ≡ spell 256 0 (length octets.old) n }
{
    let mut rest = n;
    let mut i = octets.len();
    while 0 < i {
        octets[i - 1] = (rest % 256) as u8;
        rest /= 256;
        i -= 1;
    }
}

// Whether each octet is from lo to hi.
fn all_within(s: &[u8], lo: u8, hi: u8) -> bool
    ensures { result ≡ all_between lo hi s.now }
{
    let mut i: usize = 0;
    while i < s.len() {
        if s[i] < lo {
            return false;
        }
        if hi < s[i] {
            return false;
        }
        i += 1;
    }
    true
}

// Copies all of one slice into another, from a place on.
fn copy(from: &[u8], into: &mut [u8], at: usize)
    requires { at + length from.now ≤ length into.old }
    ensures { into.new ≡ copied into.old at from.now }
{
    let mut i: usize = 0;
    while i < from.len() {
        into[at + i] = from[i];
        i += 1;
    }
}
