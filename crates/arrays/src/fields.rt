// A number of an array as a field of its width takes it; 0 where the array has no such place.
ghost use Rattle.std.specs.Prelude.{◌≡◌, ◌%◌, get_or};
ghost use Rattle.csn1.specs.Told.{is_one};

pub fn number_at(numbers: &[u64], at: usize) -> u64
    ensures { result ≡ get_or numbers.now at 0 }
{
    numbers.get(at).copied().unwrap_or(0)
}

pub fn word_at(numbers: &[u64], at: usize) -> u32
    ensures { result ≡ get_or numbers.now at 0 % 4294967296 }
{
    (number_at(numbers, at) % 4294967296) as u32
}

pub fn octet_at(numbers: &[u64], at: usize) -> u8
    ensures { result ≡ get_or numbers.now at 0 % 256 }
{
    (number_at(numbers, at) % 256) as u8
}

pub fn flag_at(numbers: &[u64], at: usize) -> bool
    ensures { result ≡ is_one (get_or numbers.now at 0) }
{
    number_at(numbers, at) == 1
}
