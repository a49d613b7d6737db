// Octets as three words with zeros behind them: 64 bits are taken at any place without asking whether they are there.
ghost use Rattle.std.specs.Prelude.{◌≡◌, ◌+◌, ◌*◌, ◌≤◌, ◌<◌, length};
ghost use Rattle.bits.specs.Field.{field};
ghost use Rattle.words.specs.Array.{spanned};
ghost use Rattle.words.specs.Inner.{Loaded, Spans, Part};

#[derive(Clone, Copy)]
pub(crate) struct Words {
    a: u64,
    b: u64,
    c: u64,
}

// An octet as a wider number.
fn wide(o: u8) -> u64
    ensures { result ≡ o }
{
    o as u64
}

// Two, four and eight octets as one number, the first of them the highest. With the lower part first in each sum, the compiler makes one load of the eight.
fn two(s: &[u8], i: usize) -> u64
    requires { i + 2 ≤ length s.now }
    ensures { result ≡ field s.now (i * 8) 16 }
{
    wide(s[i + 1]) + wide(s[i]) * 256
}

pub(crate) fn four(s: &[u8], i: usize) -> u64
    requires { i + 4 ≤ length s.now }
    ensures { result ≡ field s.now (i * 8) 32 }
{
    two(s, i + 2) + two(s, i) * 65536
}

pub(crate) fn eight(s: &[u8], i: usize) -> u64
    requires { i + 8 ≤ length s.now }
    ensures { result ≡ field s.now (i * 8) 64 }
{
    four(s, i + 4) + four(s, i) * 4294967296
}

// The words of 9 to 24 octets. The last one that has octets overlaps the one before it, shifted, so that each is one load.
pub(crate) fn load(s: &[u8]) -> Words
    requires { (9 ≤ length s.now) × (length s.now ≤ 24) }
    ensures { Loaded result s.now }
{
    let n = s.len();
    if n < 17 {
        return Words {
            a: eight(s, 0),
            b: eight(s, n - 8) << (128 - n * 8),
            c: 0,
        };
    }
    Words {
        a: eight(s, 0),
        b: eight(s, 8),
        c: eight(s, n - 8) << (192 - n * 8),
    }
}

// The 64 bits from bit k on of two words.
pub(crate) fn funnel(x: u64, y: u64, k: usize) -> u64
    requires { k < 64 }
    ensures { (result ≡ spanned x y k) × Spans x y k result }
{
    (x << k) + (y >> 1 >> (63 - k))
}

// The 64 bits from a place on; bits behind the octets are 0. The octets are there for the contract alone.
pub(crate) fn at(s: &[u8], w: Words, place: usize) -> u64
    requires { Loaded w s.now }
    ensures { result ≡ field s.now place 64 }
{
    if place < 64 {
        return funnel(w.a, w.b, place);
    }
    if place < 128 {
        return funnel(w.b, w.c, place - 64);
    }
    if place < 192 {
        return funnel(w.c, 0, place - 128);
    }
    0
}

// The field of width bits that begins at bit `from` of 64 bits.
pub(crate) fn part(x: u64, from: usize, width: usize) -> u64
    requires { (0 < width) × (from + width ≤ 64) }
    ensures { Part x from width result }
{
    (x << from) >> (64 - width)
}
