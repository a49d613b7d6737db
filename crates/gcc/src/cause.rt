// Cause (44.068, 9.4.3): septets, of which the last is marked, and diagnostics.
ghost use Rattle.std.specs.Prelude.{◌≡◌, true, ◌+◌, ◌-◌, ◌≤◌, ◌<◌, length, get_or, set, take, drop};
ghost use Rattle.gcc.specs.Octet.{all_between};
ghost use Rattle.gcc.specs.Cause.{is_listed, single, in_places, said, refused, read_of, cause_octets, parts_of, diagnostics_of, right, write_number, write_to};
ghost use Rattle.gcc.specs.Inner.{closing};

use crate::{all_within, copy};

// Specific is a single septet that table 9.4 lists, by its number there; nothing is what a refused element means.
#[derive(Clone, Copy)]
pub enum Meaning {
    Nothing,
    Specific(u8),
    Unspecific,
}

// The septets and the diagnostics, in the first places of the arrays; the other places are zero.
#[derive(Clone, Copy)]
pub struct Cause {
    pub count: u8,
    pub septets: [u8; 255],
    pub size: u8,
    pub diagnostics: [u8; 255],
}

#[derive(Clone, Copy)]
pub struct Reading {
    pub refusal: u8,
    pub meaning: Meaning,
    pub cause: Cause,
}

// Table 9.4: the bit of weight 2^(n % 64) in word n / 64 is 1 where the cause n is listed.
const LISTED: [u64; 2] = [0xffff_0047_41d3_0768, 0x0001_001f_8002_0000];

// Whether table 9.4 lists a cause.
fn is_listed(n: u8) -> bool
    requires { n < 128 }
    ensures { result ≡ is_listed n }
{
    let word = LISTED[(n / 64) as usize];
    (word >> (n % 64)) % 2 == 1
}

// Reads on to the octet that closes a cause: one septet, or that much more of the same. It answers the place of the first octet from at on
// whose top bit is 1, or of the end where none of those left has it. A reference to an array is one pointer, so that the compiler makes a
// loop of the calls and they take no stack; a slice, of two words, would be passed in memory.
fn closes_at(octets: &[u8; 255], at: usize, left: usize) -> usize
    requires { (at + left ≤ 255) × (length octets.now ≡ 255) }
    ensures { result ≡ at + closing (take left (drop at octets.now)) }
{
    if left == 0 {
        return at;
    }
    if 127 < octets[at] {
        return at;
    }
    closes_at(octets, at + 1, left - 1)
}

// What so many septets mean; n is the only one, where there is one.
fn meaning_of(count: usize, n: u8) -> Meaning
    requires { n < 128 }
    ensures { result ≡ single count n }
{
    if count != 1 {
        return Meaning::Unspecific;
    }
    if is_listed(n) {
        return Meaning::Specific(n);
    }
    Meaning::Unspecific
}

// An array that keeps the octets, with zero in the other places.
fn kept(octets: &[u8]) -> [u8; 255]
    requires { length octets.now ≤ 255 }
    ensures { result ≡ in_places octets.now }
{
    let mut places = [0u8; 255];
    copy(octets, &mut places, 0);
    places
}

// What a cause says that closes at end.
fn tell(octets: &[u8], end: usize) -> Reading
    requires { (end < length octets.now) × ((length octets.now ≤ 255) × (127 < get_or octets.now end 0)) }
    ensures { result ≡ said (set (take (end + 1) octets.now) end (get_or octets.now end 0 - 128))
        (drop (end + 1) octets.now) }
{
    let count = end + 1;
    let last = octets[end] - 128;
    let mut septets = kept(&octets[..count]);
    septets[end] = last;
    let diagnostics = kept(&octets[count..]);
    Reading {
        refusal: 0,
        meaning: meaning_of(count, last),
        cause: Cause {
            count: count as u8,
            septets,
            size: (octets.len() - count) as u8,
            diagnostics,
        },
    }
}

fn refuse(number: u8) -> Reading
    ensures { result ≡ refused number }
{
    Reading {
        refusal: number,
        meaning: Meaning::Nothing,
        cause: Cause {
            count: 0,
            septets: [0; 255],
            size: 0,
            diagnostics: [0; 255],
        },
    }
}

// Reads the octets. None, more than 255, and a cause that never closes are 13.
pub fn read(octets: &[u8]) -> Reading
    ensures { result ≡ read_of octets.now }
{
    if 255 < octets.len() {
        return refuse(13);
    }
    let all = kept(octets);
    let end = closes_at(&all, 0, octets.len());
    if end == octets.len() {
        return refuse(13);
    }
    tell(octets, end)
}

// Whether each septet has seven bits, and the other places are zero.
fn is_right(cause: Cause) -> bool
    ensures { result ≡ right cause }
{
    let count = cause.count as usize;
    let septets = cause.septets;
    if !all_within(&septets[..count], 0, 127) {
        return false;
    }
    if !all_within(&septets[count..], 0, 0) {
        return false;
    }
    let size = cause.size as usize;
    let diagnostics = cause.diagnostics;
    all_within(&diagnostics[size..], 0, 0)
}

// Fills octets of the right number with septets and diagnostics.
fn put_cause(cause: Cause, octets: &mut [u8])
    requires { (0 < cause.count) × ((length octets.old ≡ cause.count + cause.size) × (all_between 0 127 (parts_of cause) ≡ true)) }
    ensures { octets.new ≡ cause_octets (parts_of cause) (diagnostics_of cause) }
{
    let count = cause.count as usize;
    let mut septets = cause.septets;
    septets[count - 1] = septets[count - 1] + 128;
    copy(&septets[..count], &mut *octets, 0);
    let size = cause.size as usize;
    let diagnostics = cause.diagnostics;
    copy(&diagnostics[..size], &mut *octets, count);
}

// Writes septets and diagnostics, or refuses and leaves the octets as they are. No septet, and more than 255 octets, are 13, a septet of
// more than seven bits and anything but zero in the other places are 12, octets of another number than the cause has are 11.
pub fn write(cause: Cause, octets: &mut [u8]) -> u8
    ensures { (result ≡ write_number cause (length octets.old))
        × (octets.new ≡ write_to cause octets.old) }
{
    let count = cause.count as usize;
    let size = cause.size as usize;
    if count == 0 {
        return 13;
    }
    if 255 < count + size {
        return 13;
    }
    if !is_right(cause) {
        return 12;
    }
    if octets.len() != count + size {
        return 11;
    }
    put_cause(cause, &mut *octets);
    0
}
