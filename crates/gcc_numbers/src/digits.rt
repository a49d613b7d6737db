// Originator-to-dispatcher as twelve ASCII digits.
ghost use Rattle.std.specs.Prelude.{◌≡◌, length};
ghost use Rattle.bits.specs.Field.{pick};
ghost use Rattle.csn1.specs.Told.{padded};
ghost use Rattle.gcc.specs.Digits.{read_of, write_number, write_to};
ghost use Rattle.gcc_numbers.specs.ElementNumbers.{fits, code_for, digits_most};

use crate::{are_octets, narrow, widen};
use arrays::fill;
use gcc::digits;

pub fn read(octets: &[u8], numbers: &mut [u64]) -> u8
    ensures { (result ≡ (read_of octets.now).refusal) × (numbers.new ≡ padded 0 (length numbers.old) (read_of octets.now).digits) }
{
    let m = digits::read(octets);
    let all = m.digits;
    fill::clear(&mut *numbers, 0);
    widen(&all, &mut *numbers, 0);
    m.refusal
}

pub fn write(numbers: &[u64], octets: &mut [u8]) -> u8
    ensures { (result ≡ code_for 12 digits_most numbers.now (write_number numbers.now (length octets.old)))
        × (octets.new ≡ pick (fits 12 digits_most numbers.now) (write_to numbers.now octets.old) octets.old) }
{
    if numbers.len() != 12 {
        return 13;
    }
    if !are_octets(numbers) {
        return 12;
    }
    let mut all = [0u8; 12];
    narrow(numbers, &mut all);
    digits::write(&all, octets)
}
