// Message type as two numbers: send sequence number, message type.
ghost use Rattle.std.specs.Prelude.{◌≡◌, length, get_or, eqb};
ghost use Rattle.bits.specs.Field.{pick};
ghost use Rattle.csn1.specs.Told.{padded};
ghost use Rattle.gcc.specs.MessageType.{kind_of, read_of, written_of};
ghost use Rattle.gcc_numbers.specs.ElementNumbers.{code_for, is_flag, type_numbers, type_most};

use arrays::{fill, limits};
use gcc::message_type;

const MOST: [u64; 2] = [1, 255];

pub fn read(octet: u8, numbers: &mut [u64]) -> u8
    ensures { (result ≡ (read_of octet).refusal) × (numbers.new ≡ padded 0 (length numbers.old) (type_numbers (read_of octet))) }
{
    let m = message_type::read(octet);
    let kind = m.kind;
    let all = [m.sequence as u64, message_type::number_of(kind) as u64];
    fill::store(&all, numbers);
    m.refusal
}

pub fn write(numbers: &[u64], octet: &mut u8) -> u8
    ensures { (result ≡ code_for 2 type_most numbers.now (written_of (is_flag numbers.now 0) (kind_of (get_or numbers.now 1 0))).refusal)
        × (octet.new ≡ pick (eqb result 0) (written_of (is_flag numbers.now 0) (kind_of (get_or numbers.now 1 0))).octet octet.old) }
{
    if numbers.len() != 2 {
        return 13;
    }
    if !limits::holds(numbers, &MOST) {
        return 12;
    }
    let w = message_type::write(numbers[0] == 1, message_type::kind_of(numbers[1] as u8));
    if w.refusal != 0 {
        return w.refusal;
    }
    *octet = w.octet;
    0
}
