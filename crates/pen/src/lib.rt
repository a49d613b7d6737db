// Bits written behind bits in three words, the last of them lowest: octets are touched last, and once.
#![tactic(auto)]

ghost use Rattle.std.specs.Prelude.{◌≡◌, ◌<◌};
ghost use Rattle.pen.specs.Words.{no_words, whole, added, put_words};

pub mod calls;
pub mod octets;

// What was written is one number, of which these are the last 192 bits.
#[derive(Clone, Copy)]
pub struct Words {
    pub a: u64,
    pub b: u64,
    pub c: u64,
}

pub fn none() -> Words
    ensures { result ≡ no_words }
{
    Words { a: 0, b: 0, c: 0 }
}

// Behind what is there, bits of a number: fewer than a word has.
fn shift(w: Words, width: usize, v: u64) -> Words
    requires { width < 64 }
    ensures { whole result ≡ added (whole w) width v }
{
    let up = 63 - width;
    Words {
        a: (w.a << width) + (w.b >> 1 >> up),
        b: (w.b << width) + (w.c >> 1 >> up),
        c: (w.c << width) + v % (1u64 << width),
    }
}

// The last width bits of a number behind what is there; more than 64 are none.
pub fn put(w: Words, width: usize, v: u64) -> Words
    ensures { result ≡ put_words w width v }
{
    if width < 64 {
        return shift(w, width, v);
    }
    if width == 64 {
        return Words {
            a: w.b,
            b: w.c,
            c: v,
        };
    }
    w
}
