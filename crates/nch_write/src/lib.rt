// The writer of NT/N Rest Octets. The form is put together in words and its bits are counted on behind the last of 160, so that its length is known at its end; octets are touched last.
#![tactic(auto)]

ghost use Rattle.std.specs.Prelude.{◌≡◌, true, [], ◌∷◌, map, ◌+◌, ◌-◌, ◌≤◌, ◌<◌, ◌^◌, length, take, eqb};
ghost use Rattle.bits.specs.Field.{pick};
ghost use Rattle.csn1.specs.Format.{num, num_bits, opt, list, release, pad_bit, ◌⨟◌};
ghost use Rattle.csn1.specs.Grammar.{format};
ghost use Rattle.csn1.specs.Told.{there, as_bit};
ghost use Rattle.call.specs.Call.{group_call, call_value};
ghost use Rattle.nch.specs.Places.{most_calls, most_reduceds, most_randoms, most_marks};
ghost use Rattle.nch.specs.Octets.{reduced, random, amr, release6, release7};
ghost use Rattle.nch.specs.Told.{reduced_value, random_value, amr_value, release6_value, release7_value};
ghost use Rattle.nch.specs.Write.{all, reduced_in_range, random_in_range, release6_in_range, release7_in_range, record_refusal, form, write_number, after_write};
ghost use Rattle.nch.specs.Inner.{call_right};
ghost use Rattle.nch_write.specs.Inner.{no_pen, Inks};

use call::Call;
use nch::{Notification, Random, Reduced, Release6, Release7, places};
use pen::Words;

mod calls;
pub mod checks;

// What is written of the form, and how many bits it is.
#[derive(Clone, Copy)]
struct Pen {
    words: Words,
    at: usize,
}

fn bit_of(b: bool) -> u64
    ensures { result ≡ as_bit b }
{
    if b {
        return 1;
    }
    0
}

// The last width bits of a number.
fn put(p: Pen, width: usize, v: u64) -> Pen
    requires { (width ≤ 64) × ((p.at ≤ 8192) × (v < 2 ^ width)) }
    ensures { Inks p (num_bits width v) result }
{
    let words = p.words;
    Pen {
        words: pen::put(words, width, v),
        at: p.at + width,
    }
}

// {0 | 1 <number : bit (width)>}
fn put_flagged(p: Pen, here: bool, width: usize, v: u64) -> Pen
    requires { (width < 64) × ((p.at ≤ 8192) × (v < 2 ^ width)) }
    ensures { Inks p ((opt (num width)).bits 160 p.at (there here v)) result × (result.at ≤ p.at + 1 + width) }
{
    if !here {
        return put(p, 1, 0);
    }
    put(p, 1 + width, (1u64 << width) + v)
}

// A call behind the 1 that leads it; so with what follows.
fn put_call(p: Pen, c: Call) -> Pen
    requires { (p.at ≤ 8192) × (call_right c ≡ true) }
    ensures { Inks p (1 ∷ group_call.bits 160 (p.at + 1) (call_value c)) result × (result.at ≤ p.at + 136) }
{
    let led = put(p, 1, 1);
    let words = led.words;
    Pen {
        words: pen::calls::put(words, c),
        at: led.at + call::writer::size(c),
    }
}

fn put_reduced(p: Pen, c: Reduced) -> Pen
    requires { (p.at ≤ 8192) × (reduced_in_range c ≡ true) }
    ensures { Inks p (1 ∷ (format reduced).bits 160 (p.at + 1) (reduced_value c)) result × (result.at ≤ p.at + 29) }
{
    put(p, 29, 268435456 + c.reference as u64 * 2 + bit_of(c.vgcs))
}

fn put_random(p: Pen, c: Random) -> Pen
    requires { (p.at ≤ 4096) × (random_in_range c ≡ true) }
    ensures { Inks p (1 ∷ (format random).bits 160 (p.at + 1) (random_value c)) result × (result.at ≤ p.at + 39) }
{
    let led = put(p, 2, 2 + bit_of(c.segment));
    put_flagged(led, c.hasRandom, 36, c.rand)
}

fn put_mark(p: Pen, m: bool) -> Pen
    requires { p.at ≤ 8192 }
    ensures { Inks p (1 ∷ num_bits 1 (as_bit m)) result × (result.at ≤ p.at + 2) }
{
    put(p, 2, 2 + bit_of(m))
}

fn put_calls(p: Pen, calls: [Call; places::MOST_CALLS], count: usize) -> Pen
    requires { (count ≤ most_calls) × ((p.at ≤ 2048) × (all call_right (take count calls) ≡ true)) }
    ensures { Inks p ((list group_call).bits 160 p.at (map call_value (take count calls))) result × (result.at ≤ p.at + 545) }
{
    let mut q = p;
    let mut i: usize = 0;
    while i < count {
        let c = calls[i];
        q = put_call(q, c);
        i += 1;
    }
    put(q, 1, 0)
}

fn put_reduceds(p: Pen, items: [Reduced; places::MOST_REDUCEDS], count: usize) -> Pen
    requires { (count ≤ most_reduceds) × ((p.at ≤ 2048) × (all reduced_in_range (take count items) ≡ true)) }
    ensures { Inks p ((list (format reduced)).bits 160 p.at (map reduced_value (take count items))) result × (result.at ≤ p.at + 146) }
{
    let mut q = p;
    let mut i: usize = 0;
    while i < count {
        let c = items[i];
        q = put_reduced(q, c);
        i += 1;
    }
    put(q, 1, 0)
}

fn put_randoms(p: Pen, items: [Random; places::MOST_RANDOMS], count: usize) -> Pen
    requires { (count ≤ most_randoms) × ((p.at ≤ 2048) × (all random_in_range (take count items) ≡ true)) }
    ensures { Inks p ((list (format random)).bits 160 p.at (map random_value (take count items))) result × (result.at ≤ p.at + 352) }
{
    let mut q = p;
    let mut i: usize = 0;
    while i < count {
        let c = items[i];
        q = put_random(q, c);
        i += 1;
    }
    put(q, 1, 0)
}

fn put_marks(p: Pen, marks: [bool; places::MOST_MARKS], count: usize) -> Pen
    requires { (count ≤ most_marks) × (p.at ≤ 2048) }
    ensures { Inks p ((list (num 1)).bits 160 p.at (map as_bit (take count marks))) result × (result.at ≤ p.at + 9) }
{
    let mut q = p;
    let mut i: usize = 0;
    while i < count {
        let m = marks[i];
        q = put_mark(q, m);
        i += 1;
    }
    put(q, 1, 0)
}

// H, which leads a release that is there: the inverse of the padding bit.
fn put_high(p: Pen) -> Pen
    requires { p.at ≤ 8192 }
    ensures { Inks p ((1 - pad_bit p.at) ∷ []) result }
{
    put(p, 1, 1 - csn1::padding_bit(p.at))
}

// A release that is absent: nothing where all bits are used, else L.
fn put_low(p: Pen) -> Pen
    requires { p.at ≤ 8192 }
    ensures { Inks p (pick (eqb p.at 160) [] (pad_bit p.at ∷ [])) result × (result.at ≤ p.at + 1) }
{
    if p.at == 160 {
        return p;
    }
    put(p, 1, csn1::padding_bit(p.at))
}

// {null | L | H <Release 6>}
fn put_release6(p: Pen, r: Release6) -> Pen
    requires { (p.at ≤ 1024) × (release6_in_range r ≡ true) }
    ensures { Inks p ((release (format release6)).bits 160 p.at (there r.hasRelease (release6_value r))) result × (result.at ≤ p.at + 502) }
{
    if !r.hasRelease {
        return put_low(p);
    }
    let h = put_high(p);
    let a = put_flagged(h, r.hasCount, 2, r.cellcount as u64);
    let reduced = r.reduced;
    let b = put_reduceds(a, reduced, r.reducedcount);
    let randoms = r.randoms;
    put_randoms(b, randoms, r.randomcount)
}

// {0 | 1 {0|1 <FR AMR Config: bit(4)>} {0|1 <HR AMR Config: bit(4)>}}
fn put_amr(p: Pen, r: Release7) -> Pen
    requires { (p.at ≤ 4096) × ((r.fullrate < 16) × (r.halfrate < 16)) }
    ensures { Inks p ((opt (format amr)).bits 160 p.at (there r.hasAmr (amr_value r))) result × (result.at ≤ p.at + 11) }
{
    if !r.hasAmr {
        return put(p, 1, 0);
    }
    let led = put(p, 1, 1);
    let a = put_flagged(led, r.hasFullrate, 4, r.fullrate as u64);
    put_flagged(a, r.hasHalfrate, 4, r.halfrate as u64)
}

// {0 | 1 <SMS Data Confidentiality Ind: bit(1)> <SMS Guaranteed Privacy Ind: bit(1)>}
fn put_sms(p: Pen, here: bool, confidential: bool, private: bool) -> Pen
    requires { p.at ≤ 8192 }
    ensures { Inks p ((opt (num 1 ⨟ num 1)).bits 160 p.at (there here (as_bit confidential, as_bit private))) result }
{
    if !here {
        return put(p, 1, 0);
    }
    put(p, 3, 4 + 2 * bit_of(confidential) + bit_of(private))
}

// {null | L | H <Release 7>}
fn put_release7(p: Pen, r: Release7) -> Pen
    requires { (p.at ≤ 1536) × (release7_in_range r ≡ true) }
    ensures { Inks p ((release (format release7)).bits 160 p.at (there r.hasRelease (release7_value r))) result }
{
    if !r.hasRelease {
        return put_low(p);
    }
    let h = put_high(p);
    let marks = r.marks;
    let a = put_marks(h, marks, r.markcount);
    let b = put_flagged(a, r.hasUplink, 1, bit_of(r.uplink));
    let c = put_amr(b, r);
    put_sms(c, r.hasSms, r.confidential, r.private)
}

// The whole form, and its length in bits.
fn put_all(m: Notification) -> Pen
    requires { record_refusal m ≡ 0 }
    ensures { Inks no_pen (form m) result }
{
    let start = Pen {
        words: pen::none(),
        at: 0,
    };
    let a = put_flagged(start, m.hasNln, 2, m.nln as u64);
    let calls = m.calls;
    let b = put_calls(a, calls, m.callcount);
    let six = m.release6;
    let c = put_release6(b, six);
    let seven = m.release7;
    put_release7(c, seven)
}

// Writes the record into twenty octets and says 0, or says the number of the refusal and leaves the buffer as it is.
pub fn write(m: Notification, octets: &mut [u8]) -> u8
    ensures { (result ≡ write_number m (length octets.old)) × (octets.new ≡ after_write m octets.old) }
{
    let refusal = checks::refusal(m);
    if refusal != 0 {
        return refusal;
    }
    let p = put_all(m);
    let used = p.at;
    if 160 < used {
        return 11;
    }
    if octets.len() != 20 {
        return 11;
    }
    let words = p.words;
    pen::octets::store(words, used, &mut *octets);
    0
}
