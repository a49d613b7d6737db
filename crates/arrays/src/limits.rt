// Numbers held to the largest that their fields take.
ghost use Rattle.std.specs.Prelude.{◌≡◌};
ghost use Rattle.arrays.specs.Limits.{within};

// Of a flag, of an octet, of 32 bits and of 64 bits.
pub const FLAG: u64 = 1;

pub const OCTET: u64 = 255;

pub const WORD: u64 = 4294967295;

pub const LONG: u64 = 18446744073709551615;

// Whether no number is above the one in its place among the largest.
pub fn holds(numbers: &[u64], most: &[u64]) -> bool
    ensures { result ≡ within numbers.now most.now }
{
    numbers.iter().zip(most.iter()).all(|(n, m)| n <= m)
}
