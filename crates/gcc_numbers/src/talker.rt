// Talker priority as a number.
ghost use Rattle.std.specs.Prelude.{◌≡◌, length, get_or, eqb};
ghost use Rattle.bits.specs.Field.{pick};
ghost use Rattle.csn1.specs.Told.{padded};
ghost use Rattle.gcc.specs.Talker.{number_of, priority_of, read_of};
ghost use Rattle.gcc_numbers.specs.ElementNumbers.{code_for, talker_numbers, talker_most};

use arrays::{fill, limits};
use gcc::talker;

const MOST: [u64; 1] = [2];

pub fn read(half: u8, numbers: &mut [u64]) -> u8
    ensures { (result ≡ (read_of half).refusal) × (numbers.new ≡ padded 0 (length numbers.old) (talker_numbers (read_of half))) }
{
    let m = talker::read(half);
    let priority = m.priority;
    let all = [talker::write(priority) as u64];
    fill::store(&all, numbers);
    m.refusal
}

pub fn write(numbers: &[u64], half: &mut u8) -> u8
    ensures { (result ≡ code_for 1 talker_most numbers.now 0)
        × (half.new ≡ pick (eqb result 0) (number_of (priority_of (get_or numbers.now 0 0))) half.old) }
{
    if numbers.len() != 1 {
        return 13;
    }
    if !limits::holds(numbers, &MOST) {
        return 12;
    }
    *half = talker::write(talker::priority_of(numbers[0] as u8));
    0
}
