// The elements of 44.068 on arrays of numbers.
ghost use Rattle.std.specs.Prelude.{◌≡◌, length, get_or, eqb};
ghost use Rattle.bits.specs.Field.{pick};
ghost use Rattle.csn1.specs.Told.{padded};
ghost use Rattle.gcc.specs.MessageType.{kind_of, read_of as readType, written_of as writtenType};
ghost use Rattle.gcc.specs.CallReference.{read_of as readReference, write_number as referenceNumber, write_to as referenceTo};
ghost use Rattle.gcc.specs.CallState.{state_of, read_of as readState, written_of as writtenState};
ghost use Rattle.gcc.specs.Cause.{read_of as readCause, write_to as causeTo};
ghost use Rattle.gcc.specs.Originator.{read_of as readOriginator, written_of as writtenOriginator};
ghost use Rattle.gcc.specs.StateAttributes.{read_of as readAttributes, written_of as writtenAttributes};
ghost use Rattle.gcc.specs.Sms.{read_of as readSms, written_of as writtenSms};
ghost use Rattle.gcc.specs.Talker.{number_of, priority_of, read_of as readTalker};
ghost use Rattle.gcc.specs.Digits.{read_of as readDigits, write_number as digitsNumber, write_to as digitsTo};
ghost use Rattle.gcc_numbers.specs.ElementNumbers.{fits, code_for, is_flag, type_numbers, type_most, reference_numbers, priority_from, reference_most, state_numbers, state_most, cause_numbers, cause_fits, cause_from, cause_code, originator_numbers, originator_most, attributes_numbers, attributes_most, attributes_from, sms_numbers, sms_most, sms_from, talker_numbers, talker_most, digits_most};

#[unsafe(no_mangle)]
pub extern "C" fn asternhaken_message_type_read(octet: u8, numbers: &mut [u64]) -> u32
    ensures { (result ≡ (readType octet).refusal) × (numbers.new ≡ padded 0 (length numbers.old) (type_numbers (readType octet))) }
{
    host_codecs::elements::asternhaken_message_type_read(octet, numbers)
}

#[unsafe(no_mangle)]
pub extern "C" fn asternhaken_message_type_write(numbers: &[u64], octet: &mut u8) -> u32
    ensures { (result ≡ code_for 2 type_most numbers.now (writtenType (is_flag numbers.now 0) (kind_of (get_or numbers.now 1 0))).refusal)
        × (octet.new ≡ pick (eqb result 0) (writtenType (is_flag numbers.now 0) (kind_of (get_or numbers.now 1 0))).octet octet.old) }
{
    host_codecs::elements::asternhaken_message_type_write(numbers, octet)
}

#[unsafe(no_mangle)]
pub extern "C" fn asternhaken_call_reference_read(octets: &[u8], numbers: &mut [u64]) -> u32
    ensures { (result ≡ (readReference octets.now).refusal) × (numbers.new ≡ padded 0 (length numbers.old) (reference_numbers (readReference octets.now))) }
{
    host_codecs::elements::asternhaken_call_reference_read(octets, numbers)
}

#[unsafe(no_mangle)]
pub extern "C" fn asternhaken_call_reference_write(numbers: &[u64], octets: &mut [u8]) -> u32
    ensures { (result ≡ code_for 3 reference_most numbers.now (referenceNumber (get_or numbers.now 0 0) (priority_from numbers.now) (length octets.old)))
        × (octets.new ≡ pick (fits 3 reference_most numbers.now) (referenceTo (get_or numbers.now 0 0) (priority_from numbers.now) octets.old) octets.old) }
{
    host_codecs::elements::asternhaken_call_reference_write(numbers, octets)
}

#[unsafe(no_mangle)]
pub extern "C" fn asternhaken_call_state_read(half: u8, numbers: &mut [u64]) -> u32
    ensures { (result ≡ (readState half).refusal) × (numbers.new ≡ padded 0 (length numbers.old) (state_numbers (readState half))) }
{
    host_codecs::elements::asternhaken_call_state_read(half, numbers)
}

#[unsafe(no_mangle)]
pub extern "C" fn asternhaken_call_state_write(numbers: &[u64], half: &mut u8) -> u32
    ensures { (result ≡ code_for 1 state_most numbers.now (writtenState (state_of (get_or numbers.now 0 0))).refusal)
        × (half.new ≡ pick (eqb result 0) (writtenState (state_of (get_or numbers.now 0 0))).half half.old) }
{
    host_codecs::elements::asternhaken_call_state_write(numbers, half)
}

#[unsafe(no_mangle)]
pub extern "C" fn asternhaken_cause_read(octets: &[u8], numbers: &mut [u64]) -> u32
    ensures { (result ≡ (readCause octets.now).refusal) × (numbers.new ≡ padded 0 (length numbers.old) (cause_numbers (readCause octets.now))) }
{
    host_codecs::elements::asternhaken_cause_read(octets, numbers)
}

#[unsafe(no_mangle)]
pub extern "C" fn asternhaken_cause_write(numbers: &[u64], octets: &mut [u8]) -> u32
    ensures { (result ≡ cause_code numbers.now (length octets.old))
        × (octets.new ≡ pick (cause_fits numbers.now) (causeTo (cause_from numbers.now) octets.old) octets.old) }
{
    host_codecs::elements::asternhaken_cause_write(numbers, octets)
}

#[unsafe(no_mangle)]
pub extern "C" fn asternhaken_originator_read(half: u8, numbers: &mut [u64]) -> u32
    ensures { (result ≡ (readOriginator half).refusal) × (numbers.new ≡ padded 0 (length numbers.old) (originator_numbers (readOriginator half))) }
{
    host_codecs::elements::asternhaken_originator_read(half, numbers)
}

#[unsafe(no_mangle)]
pub extern "C" fn asternhaken_originator_write(numbers: &[u64], half: &mut u8) -> u32
    ensures { (result ≡ code_for 1 originator_most numbers.now 0)
        × (half.new ≡ pick (eqb result 0) (writtenOriginator (is_flag numbers.now 0)) half.old) }
{
    host_codecs::elements::asternhaken_originator_write(numbers, half)
}

#[unsafe(no_mangle)]
pub extern "C" fn asternhaken_state_attributes_read(half: u8, numbers: &mut [u64]) -> u32
    ensures { (result ≡ (readAttributes half).refusal) × (numbers.new ≡ padded 0 (length numbers.old) (attributes_numbers (readAttributes half))) }
{
    host_codecs::elements::asternhaken_state_attributes_read(half, numbers)
}

#[unsafe(no_mangle)]
pub extern "C" fn asternhaken_state_attributes_write(numbers: &[u64], half: &mut u8) -> u32
    ensures { (result ≡ code_for 4 attributes_most numbers.now 0)
        × (half.new ≡ pick (eqb result 0) (writtenAttributes (attributes_from numbers.now)) half.old) }
{
    host_codecs::elements::asternhaken_state_attributes_write(numbers, half)
}

#[unsafe(no_mangle)]
pub extern "C" fn asternhaken_sms_read(half: u8, numbers: &mut [u64]) -> u32
    ensures { (result ≡ (readSms half).refusal) × (numbers.new ≡ padded 0 (length numbers.old) (sms_numbers (readSms half))) }
{
    host_codecs::elements::asternhaken_sms_read(half, numbers)
}

#[unsafe(no_mangle)]
pub extern "C" fn asternhaken_sms_write(numbers: &[u64], half: &mut u8) -> u32
    ensures { (result ≡ code_for 2 sms_most numbers.now 0)
        × (half.new ≡ pick (eqb result 0) (writtenSms (sms_from numbers.now)) half.old) }
{
    host_codecs::elements::asternhaken_sms_write(numbers, half)
}

#[unsafe(no_mangle)]
pub extern "C" fn asternhaken_talker_read(half: u8, numbers: &mut [u64]) -> u32
    ensures { (result ≡ (readTalker half).refusal) × (numbers.new ≡ padded 0 (length numbers.old) (talker_numbers (readTalker half))) }
{
    host_codecs::elements::asternhaken_talker_read(half, numbers)
}

#[unsafe(no_mangle)]
pub extern "C" fn asternhaken_talker_write(numbers: &[u64], half: &mut u8) -> u32
    ensures { (result ≡ code_for 1 talker_most numbers.now 0)
        × (half.new ≡ pick (eqb result 0) (number_of (priority_of (get_or numbers.now 0 0))) half.old) }
{
    host_codecs::elements::asternhaken_talker_write(numbers, half)
}

#[unsafe(no_mangle)]
pub extern "C" fn asternhaken_digits_read(octets: &[u8], numbers: &mut [u64]) -> u32
    ensures { (result ≡ (readDigits octets.now).refusal) × (numbers.new ≡ padded 0 (length numbers.old) (readDigits octets.now).digits) }
{
    host_codecs::elements::asternhaken_digits_read(octets, numbers)
}

#[unsafe(no_mangle)]
pub extern "C" fn asternhaken_digits_write(numbers: &[u64], octets: &mut [u8]) -> u32
    ensures { (result ≡ code_for 12 digits_most numbers.now (digitsNumber numbers.now (length octets.old)))
        × (octets.new ≡ pick (fits 12 digits_most numbers.now) (digitsTo numbers.now octets.old) octets.old) }
{
    host_codecs::elements::asternhaken_digits_write(numbers, octets)
}
