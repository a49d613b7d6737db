// State attributes as four flags.
ghost use Rattle.std.specs.Prelude.{◌≡◌, length, eqb};
ghost use Rattle.bits.specs.Field.{pick};
ghost use Rattle.csn1.specs.Told.{padded};
ghost use Rattle.gcc.specs.StateAttributes.{read_of, written_of};
ghost use Rattle.gcc_numbers.specs.ElementNumbers.{code_for, attributes_numbers, attributes_most, attributes_from};

use arrays::{fill, limits};
use gcc::state_attributes;
use gcc::state_attributes::Attributes;

const MOST: [u64; 4] = [1, 1, 1, 1];

pub fn read(half: u8, numbers: &mut [u64]) -> u8
    ensures { (result ≡ (read_of half).refusal) × (numbers.new ≡ padded 0 (length numbers.old) (attributes_numbers (read_of half))) }
{
    let m = state_attributes::read(half);
    let s = m.attributes;
    let all = [s.da as u64, s.ua as u64, s.comm as u64, s.oi as u64];
    fill::store(&all, numbers);
    m.refusal
}

pub fn write(numbers: &[u64], half: &mut u8) -> u8
    ensures { (result ≡ code_for 4 attributes_most numbers.now 0)
        × (half.new ≡ pick (eqb result 0) (written_of (attributes_from numbers.now)) half.old) }
{
    if numbers.len() != 4 {
        return 13;
    }
    if !limits::holds(numbers, &MOST) {
        return 12;
    }
    *half = state_attributes::write(Attributes {
        da: numbers[0] == 1,
        ua: numbers[1] == 1,
        comm: numbers[2] == 1,
        oi: numbers[3] == 1,
    });
    0
}
