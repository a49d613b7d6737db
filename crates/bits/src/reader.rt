// The bit reader holds the message and its place. Each function over the struct takes it apart and calls `fetch`.
ghost use Rattle.std.specs.Prelude.{◌≡◌};
ghost use Rattle.bits.specs.Field.{fetched};

use crate::Got;

#[derive(Drop)]
pub struct BitReader<'a> {
    pub src: &'a [u8],
    pub at: usize,
}

// A reader at the message's first bit.
pub fn new<'a>(src: &'a [u8]) -> BitReader<'a>
    ensures { (result.src ≡ src.entry) × (result.at ≡ 0) }
{
    BitReader { src, at: 0 }
}

// The same message, at another place.
pub fn moved<'a>(r: BitReader<'a>, at: usize) -> BitReader<'a>
    ensures { (result.src ≡ r.entry.src) × (result.at ≡ at) }
{
    BitReader { src: r.src, at }
}

// The field of width bits at the reader's place.
pub fn next<'a>(r: BitReader<'a>, width: usize) -> Got
    ensures { result ≡ fetched r.entry.src.now r.entry.at width }
{
    crate::fetch(r.src, r.at, width)
}

// The field of width bits at a place of a message: what every reader of a format calls, in plain parameters.
pub fn field(s: &[u8], at: usize, width: usize) -> Got
    ensures { result ≡ fetched s.now at width }
{
    next(moved(new(s), at), width)
}
