// Octets: numbers of four of them, the least significant first, octets that are copied, and zeros.
ghost use Rattle.std.specs.Prelude.{◌≡◌, ◌+◌, ◌≤◌, length, replicate};
ghost use Rattle.arrays.specs.Runs.{stored};
ghost use Rattle.layout.specs.Octets.{le_at};
ghost use Rattle.yard.specs.Octets.{cut};

// Stays: beside layout's of this name, each one call of the library. What layout has for all asks nothing of who calls it, and would test the place at every number read.
pub(crate) fn u32_at(b: &[u8], at: usize) -> u32
    requires { at + 4 ≤ length b.now }
    ensures { result ≡ le_at 4 b.now at }
{
    u32::from_le_bytes([b[at], b[at + 1], b[at + 2], b[at + 3]])
}

// n octets from one place to another that is behind them.
pub(crate) fn copy(b: &mut [u8], from: usize, to: usize, n: usize)
    requires { (from + n ≤ to) × (to + n ≤ length b.old) }
    ensures { b.new ≡ stored b.old to (cut b.old from n) }
{
    b.copy_within(from..from + n, to);
}

// n zeros.
pub(crate) fn zero(b: &mut [u8], at: usize, n: usize)
    requires { at + n ≤ length b.old }
    ensures { b.new ≡ stored b.old at (replicate n 0) }
{
    b[at..at + n].fill(0);
}
