// The notifications on arrays of numbers.
ghost use Rattle.std.specs.Prelude.{◌≡◌, length};
ghost use Rattle.csn1.specs.Told.{padded, code_of};
ghost use Rattle.nch.specs.Told.{read_of as readNch};
ghost use Rattle.facch.specs.Told.{read_of as readFacch};
ghost use Rattle.nch.specs.NotificationNumbers.{read_numbers as nchNumbers, write_code as nchCode, after_write as afterNch};
ghost use Rattle.numbers.specs.FacchNumbers.{read_numbers as facchNumbers, write_code as facchCode, after_write as afterFacch};

#[unsafe(no_mangle)]
pub extern "C" fn asternhaken_nch_read(octets: &[u8], numbers: &mut [u64]) -> u32
    ensures { (result ≡ code_of (readNch octets.now).refusal)
        × (numbers.new ≡ padded 0 (length numbers.old) (nchNumbers octets.now)) }
{
    host_codecs::notifications::asternhaken_nch_read(octets, numbers)
}

#[unsafe(no_mangle)]
pub extern "C" fn asternhaken_nch_write(numbers: &[u64], octets: &mut [u8]) -> u32
    ensures { (result ≡ nchCode numbers.now (length octets.old))
        × (octets.new ≡ afterNch numbers.now octets.old) }
{
    host_codecs::notifications::asternhaken_nch_write(numbers, octets)
}

#[unsafe(no_mangle)]
pub extern "C" fn asternhaken_facch_read(octets: &[u8], numbers: &mut [u64]) -> u32
    ensures { (result ≡ code_of (readFacch octets.now).refusal)
        × (numbers.new ≡ padded 0 (length numbers.old) (facchNumbers octets.now)) }
{
    host_codecs::notifications::asternhaken_facch_read(octets, numbers)
}

#[unsafe(no_mangle)]
pub extern "C" fn asternhaken_facch_write(numbers: &[u64], octets: &mut [u8]) -> u32
    ensures { (result ≡ facchCode numbers.now (length octets.old))
        × (octets.new ≡ afterFacch numbers.now octets.old) }
{
    host_codecs::notifications::asternhaken_facch_write(numbers, octets)
}
