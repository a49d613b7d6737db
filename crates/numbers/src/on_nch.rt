// NT/N Rest Octets as numbers.
ghost use Rattle.std.specs.Prelude.{◌≡◌, length};
ghost use Rattle.csn1.specs.Told.{padded};
ghost use Rattle.nch.specs.Told.{read_of};
ghost use Rattle.nch.specs.NotificationNumbers.{read_numbers, write_code, after_write};

use crate::limits;
use csn1::Refusal;
use nch::places;

// Reads any octets, into as many places as there are.
pub fn read(octets: &[u8], numbers: &mut [u64]) -> Refusal
    ensures { (result ≡ (read_of octets.now).refusal)
        × (numbers.new ≡ padded 0 (length numbers.old) (read_numbers octets.now)) }
{
    nch_words::read_into(octets, numbers)
}

// Writes the record that the numbers are into twenty octets and says 0, or says the number of the refusal and leaves the octets as they are. The first number, the
// bits that a reader used, is not looked at.
pub fn write(numbers: &[u64], octets: &mut [u8]) -> u8
    ensures { (result ≡ write_code numbers.now (length octets.old))
        × (octets.new ≡ after_write numbers.now octets.old) }
{
    if numbers.len() != places::LENGTH {
        return 13;
    }
    if !arrays::limits::holds(&numbers[places::NUMBERED..], &limits::NCH_MOST) {
        return 12;
    }
    let m = nch::numbers::record_from(numbers);
    nch_write::write(m, &mut *octets)
}
