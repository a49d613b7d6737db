// The notifications on arrays of numbers.
ghost use Rattle.std.specs.Prelude.{◌≡◌, length};
ghost use Rattle.csn1.specs.Told.{padded, code_of};
ghost use Rattle.nch.specs.Told.{read_of as readNch};
ghost use Rattle.facch.specs.Told.{read_of as readFacch};
ghost use Rattle.nch.specs.NotificationNumbers.{read_numbers as nchNumbers, write_code as nchCode, after_write as afterNch};
ghost use Rattle.numbers.specs.FacchNumbers.{read_numbers as facchNumbers, write_code as facchCode, after_write as afterFacch};

#[unsafe(no_mangle)]
pub extern "C" fn asternhaken_nch_read(octets: &[u8], numbers: &mut [u64]) -> u32
    ensures { (result ≡ code_of (readNch octets.now).refusal)
        × (numbers.new ≡ padded 0 (length numbers.old) (nchNumbers octets.now)) }
{
    let r = numbers::on_nch::read(octets, numbers);
    csn1::code(r)
}

#[unsafe(no_mangle)]
pub extern "C" fn asternhaken_nch_write(numbers: &[u64], octets: &mut [u8]) -> u32
    ensures { (result ≡ nchCode numbers.now (length octets.old))
        × (octets.new ≡ afterNch numbers.now octets.old) }
{
    numbers::on_nch::write(numbers, octets) as u32
}

#[unsafe(no_mangle)]
pub extern "C" fn asternhaken_facch_read(octets: &[u8], numbers: &mut [u64]) -> u32
    ensures { (result ≡ code_of (readFacch octets.now).refusal)
        × (numbers.new ≡ padded 0 (length numbers.old) (facchNumbers octets.now)) }
{
    let r = numbers::on_facch::read(octets, numbers);
    csn1::code(r)
}

#[unsafe(no_mangle)]
pub extern "C" fn asternhaken_facch_write(numbers: &[u64], octets: &mut [u8]) -> u32
    ensures { (result ≡ facchCode numbers.now (length octets.old))
        × (octets.new ≡ afterFacch numbers.now octets.old) }
{
    numbers::on_facch::write(numbers, octets) as u32
}
