// The words of a form into octets, padding behind it.
ghost use Rattle.std.specs.Prelude.{◌≡◌, ◌+◌, ◌*◌, ◌%◌, ◌≤◌, ◌<◌, ◌^◌, length};
ghost use Rattle.std.proofs.lemmas.List.Edits.{sets};
ghost use Rattle.pen.specs.Words.{whole, stored_in};
ghost use Rattle.pen.specs.Inner.{digits, pads};

use crate::Words;

// Eight octets of padding.
const PADDING: u64 = 3110627432037296939;

// The last one, two, four and eight octets of a number, from a place on. The compiler makes one store of each.
fn two(octets: &mut [u8], i: usize, v: u64)
    requires { i + 2 ≤ length octets.old }
    ensures { octets.new ≡ sets octets.old i (digits 2 v) }
{
    octets[i] = (v / 256 % 256) as u8;
    octets[i + 1] = (v % 256) as u8;
}

fn four(octets: &mut [u8], i: usize, v: u64)
    requires { i + 4 ≤ length octets.old }
    ensures { octets.new ≡ sets octets.old i (digits 4 v) }
{
    two(&mut *octets, i, v >> 16);
    two(&mut *octets, i + 2, v);
}

fn eight(octets: &mut [u8], i: usize, v: u64)
    requires { i + 8 ≤ length octets.old }
    ensures { octets.new ≡ sets octets.old i (digits 8 v) }
{
    four(&mut *octets, i, v >> 32);
    four(&mut *octets, i + 4, v);
}

// The last n octets of a number, from the start on: at most one, three and seven.
fn one_at_most(octets: &mut [u8], n: usize, v: u64)
    requires { (n ≤ 1) × (n ≤ length octets.old) }
    ensures { octets.new ≡ sets octets.old 0 (digits n v) }
{
    if n == 1 {
        octets[0] = (v % 256) as u8;
    }
}

fn three_at_most(octets: &mut [u8], n: usize, v: u64)
    requires { (n ≤ 3) × (n ≤ length octets.old) }
    ensures { octets.new ≡ sets octets.old 0 (digits n v) }
{
    if n < 2 {
        one_at_most(&mut *octets, n, v);
        return;
    }
    one_at_most(&mut *octets, n - 2, v >> 16);
    two(&mut *octets, n - 2, v);
}

fn seven_at_most(octets: &mut [u8], n: usize, v: u64)
    requires { (n ≤ 7) × (n ≤ length octets.old) }
    ensures { octets.new ≡ sets octets.old 0 (digits n v) }
{
    if n < 4 {
        three_at_most(&mut *octets, n, v);
        return;
    }
    three_at_most(&mut *octets, n - 4, v >> 32);
    four(&mut *octets, n - 4, v);
}

// All octets, from the words' last.
fn spread(w: Words, octets: &mut [u8])
    requires { length octets.old ≤ 23 }
    ensures { octets.new ≡ digits (length octets.old) (whole w) }
{
    let n = octets.len();
    if n < 8 {
        seven_at_most(&mut *octets, n, w.c);
        return;
    }
    if n < 16 {
        seven_at_most(&mut *octets, n - 8, w.b);
        eight(&mut *octets, n - 8, w.c);
        return;
    }
    seven_at_most(&mut *octets, n - 16, w.a);
    eight(&mut *octets, n - 16, w.b);
    eight(&mut *octets, n - 8, w.c);
}

// The last n bits of padding behind what is there.
fn pad(w: Words, n: usize) -> Words
    requires { n < 192 }
    ensures { whole result ≡ (whole w * 2 ^ n + pads 24 % 2 ^ n) % 2 ^ 192 }
{
    let p = crate::put(w, n % 64, PADDING);
    if n < 64 {
        return p;
    }
    let q = crate::put(p, 64, PADDING);
    if n < 128 {
        return q;
    }
    crate::put(q, 64, PADDING)
}

// The last `used` bits of the words, and padding behind them, in at most 23 octets that have so many bits; others stay as they are.
pub fn store(w: Words, used: usize, octets: &mut [u8])
    ensures { octets.new ≡ stored_in w used octets.old }
{
    let n = octets.len();
    if 23 < n {
        return;
    }
    if n * 8 < used {
        return;
    }
    let p = pad(w, n * 8 - used);
    spread(p, &mut *octets);
}
