// SMS indications as two flags.
ghost use Rattle.std.specs.Prelude.{◌≡◌, length, eqb};
ghost use Rattle.bits.specs.Field.{pick};
ghost use Rattle.csn1.specs.Told.{padded};
ghost use Rattle.gcc.specs.Sms.{read_of, written_of};
ghost use Rattle.gcc_numbers.specs.ElementNumbers.{code_for, sms_numbers, sms_most, sms_from};

use arrays::{fill, limits};
use gcc::sms;
use gcc::sms::Indications;

const MOST: [u64; 2] = [1, 1];

pub fn read(half: u8, numbers: &mut [u64]) -> u8
    ensures { (result ≡ (read_of half).refusal) × (numbers.new ≡ padded 0 (length numbers.old) (sms_numbers (read_of half))) }
{
    let m = sms::read(half);
    let s = m.indications;
    let all = [s.dc as u64, s.gp as u64];
    fill::store(&all, numbers);
    m.refusal
}

pub fn write(numbers: &[u64], half: &mut u8) -> u8
    ensures { (result ≡ code_for 2 sms_most numbers.now 0)
        × (half.new ≡ pick (eqb result 0) (written_of (sms_from numbers.now)) half.old) }
{
    if numbers.len() != 2 {
        return 13;
    }
    if !limits::holds(numbers, &MOST) {
        return 12;
    }
    *half = sms::write(Indications {
        dc: numbers[0] == 1,
        gp: numbers[1] == 1,
    });
    0
}
