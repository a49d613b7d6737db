// Numbers in octets, the least significant first: each load and each store is then one instruction.
ghost use Rattle.std.specs.Prelude.{◌≡◌, [], ◌∷◌, ◌+◌, ◌<◌, ◌≤◌, length};
ghost use Rattle.arrays.specs.Runs.{stored};
ghost use Rattle.layout.specs.Octets.{le_at, flag_at, low_octets};

pub(crate) fn u32_at(b: &[u8], at: usize) -> u32
    requires { at + 4 ≤ length b.now }
    ensures { result ≡ le_at 4 b.now at }
{
    u32::from_le_bytes([b[at], b[at + 1], b[at + 2], b[at + 3]])
}

pub(crate) fn u64_at(b: &[u8], at: usize) -> u64
    requires { at + 8 ≤ length b.now }
    ensures { result ≡ le_at 8 b.now at }
{
    u64::from_le_bytes([
        b[at],
        b[at + 1],
        b[at + 2],
        b[at + 3],
        b[at + 4],
        b[at + 5],
        b[at + 6],
        b[at + 7],
    ])
}

// An octet as a flag: 0 is no, any other number yes.
pub(crate) fn flag_at(b: &[u8], at: usize) -> bool
    requires { at < length b.now }
    ensures { result ≡ flag_at b.now at }
{
    b[at] != 0
}

pub(crate) fn put_u32(b: &mut [u8], at: usize, x: u32)
    requires { at + 4 ≤ length b.old }
    ensures { b.new ≡ stored b.old at (low_octets 4 x) }
{
    let o = x.to_le_bytes();
    b[at] = o[0];
    b[at + 1] = o[1];
    b[at + 2] = o[2];
    b[at + 3] = o[3];
}

// Two octets, one behind the other.
pub(crate) fn put_two(b: &mut [u8], at: usize, x: u8, y: u8)
    requires { at + 2 ≤ length b.old }
    ensures { b.new ≡ stored b.old at (x ∷ y ∷ []) }
{
    b[at] = x;
    b[at + 1] = y;
}

// Three octets, likewise.
pub(crate) fn put_three(b: &mut [u8], at: usize, x: u8, y: u8, z: u8)
    requires { at + 3 ≤ length b.old }
    ensures { b.new ≡ stored b.old at (x ∷ y ∷ z ∷ []) }
{
    b[at] = x;
    b[at + 1] = y;
    b[at + 2] = z;
}

pub(crate) fn put_u64(b: &mut [u8], at: usize, x: u64)
    requires { at + 8 ≤ length b.old }
    ensures { b.new ≡ stored b.old at (low_octets 8 x) }
{
    put_u32(b, at, (x % 4294967296) as u32);
    put_u32(b, at + 4, (x / 4294967296) as u32);
}
