// Numbers of 32 bits in octets, the most significant first.
ghost use Rattle.std.specs.Prelude.{◌≡◌, ◌+◌, ◌≤◌, ◌<◌, length};
ghost use Rattle.arrays.specs.Runs.{stored};
ghost use Rattle.uplink_lent.specs.Inner.{low_octets, turned, four_octets, Stands, StandsTurned};

// An octet as a wider number.
fn wide(o: u8) -> u32
    ensures { (result ≡ o) × (result < 256) }
{
    o as u32
}

// A number with its four octets in the other order: one instruction.
fn turned(v: u32) -> u32
    ensures { result ≡ turned v }
{
    v / 16777216 + v / 65536 % 256 * 256 + v / 256 % 256 * 65536 + v % 256 * 16777216
}

// Read and written with the least significant octet first, four octets are one load and one store to the compiler.
fn low_first(b: &[u8], i: usize) -> u32
    requires { i + 4 ≤ length b.now }
    ensures { StandsTurned b.now i result }
{
    wide(b[i]) + wide(b[i + 1]) * 256 + wide(b[i + 2]) * 65536 + wide(b[i + 3]) * 16777216
}

fn put_low_first(b: &mut [u8], i: usize, v: u32)
    requires { i + 4 ≤ length b.old }
    ensures { b.new ≡ stored b.old i (low_octets v) }
{
    b[i] = (v % 256) as u8;
    b[i + 1] = (v / 256 % 256) as u8;
    b[i + 2] = (v / 65536 % 256) as u8;
    b[i + 3] = (v / 16777216) as u8;
}

pub(crate) fn number_at(b: &[u8], i: usize) -> u32
    requires { i + 4 ≤ length b.now }
    ensures { Stands b.now i result }
{
    turned(low_first(b, i))
}

pub(crate) fn put(b: &mut [u8], i: usize, v: u32)
    requires { i + 4 ≤ length b.old }
    ensures { b.new ≡ stored b.old i (four_octets v) }
{
    put_low_first(b, i, turned(v));
}
