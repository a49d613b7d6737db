// Call reference as three numbers: reference, priority there, priority.
ghost use Rattle.std.specs.Prelude.{◌≡◌, length, get_or};
ghost use Rattle.bits.specs.Field.{pick};
ghost use Rattle.csn1.specs.Told.{padded};
ghost use Rattle.gcc.specs.CallReference.{read_of, write_number, write_to};
ghost use Rattle.gcc_numbers.specs.ElementNumbers.{fits, code_for, reference_numbers, reference_most, priority_from};

use arrays::{fill, limits};
use gcc::call_reference;

const MOST: [u64; 3] = [4294967295, 1, 7];

pub fn read(octets: &[u8], numbers: &mut [u64]) -> u8
    ensures { (result ≡ (read_of octets.now).refusal) × (numbers.new ≡ padded 0 (length numbers.old) (reference_numbers (read_of octets.now))) }
{
    let m = call_reference::read(octets);
    let priority = m.priority;
    let n = call_reference::number_of(priority) as u64;
    let all = [m.reference as u64, n / 16, n / 2 % 8];
    fill::store(&all, numbers);
    m.refusal
}

pub fn write(numbers: &[u64], octets: &mut [u8]) -> u8
    ensures { (result ≡ code_for 3 reference_most numbers.now (write_number (get_or numbers.now 0 0) (priority_from numbers.now) (length octets.old)))
        × (octets.new ≡ pick (fits 3 reference_most numbers.now) (write_to (get_or numbers.now 0 0) (priority_from numbers.now) octets.old) octets.old) }
{
    if numbers.len() != 3 {
        return 13;
    }
    if !limits::holds(numbers, &MOST) {
        return 12;
    }
    let priority = call_reference::priority_of((16 * numbers[1] + 2 * numbers[2]) as u8);
    call_reference::write(numbers[0] as u32, priority, octets)
}
