// Originator indication as a flag.
ghost use Rattle.std.specs.Prelude.{◌≡◌, length, eqb};
ghost use Rattle.bits.specs.Field.{pick};
ghost use Rattle.csn1.specs.Told.{padded};
ghost use Rattle.gcc.specs.Originator.{read_of, written_of};
ghost use Rattle.gcc_numbers.specs.ElementNumbers.{code_for, is_flag, originator_numbers, originator_most};

use arrays::{fill, limits};
use gcc::originator;

const MOST: [u64; 1] = [1];

pub fn read(half: u8, numbers: &mut [u64]) -> u8
    ensures { (result ≡ (read_of half).refusal) × (numbers.new ≡ padded 0 (length numbers.old) (originator_numbers (read_of half))) }
{
    let m = originator::read(half);
    let all = [m.oi as u64];
    fill::store(&all, numbers);
    m.refusal
}

pub fn write(numbers: &[u64], half: &mut u8) -> u8
    ensures { (result ≡ code_for 1 originator_most numbers.now 0)
        × (half.new ≡ pick (eqb result 0) (written_of (is_flag numbers.now 0)) half.old) }
{
    if numbers.len() != 1 {
        return 13;
    }
    if !limits::holds(numbers, &MOST) {
        return 12;
    }
    *half = originator::write(numbers[0] == 1);
    0
}
