// Parts of the 64 bits from a place on, and numbers that flags lead, each put into an array of zeros.
ghost use Rattle.std.specs.Prelude.{◌≡◌, ◌+◌, ◌≤◌, ◌<◌, length};
ghost use Rattle.arrays.specs.Inner.{Zeros};
ghost use Rattle.words.specs.Inner.{Part};
ghost use Rattle.nch_words.specs.Inner.{no_part_taken, FlagTaken};

// Whether a part was taken, and the place behind it.
#[derive(Drop)]
pub(crate) struct TakenPart {
    pub(crate) done: bool,
    pub(crate) at: usize,
}

pub(crate) fn no_part() -> TakenPart
    ensures { result ≡ no_part_taken }
{
    TakenPart { done: false, at: 0 }
}

// The field of width bits that begins at bit `from` of 64 bits.
pub(crate) fn part(x: u64, from: usize, width: usize) -> u64
    requires { (0 < width) × (from + width ≤ 64) }
    ensures { Part x from width result }
{
    (x << from) >> (64 - width)
}

// {0 | 1 < number : bit (width) >}, from bit `from` of 64 bits on, in two places of zeros; how far it reaches
pub(crate) fn put_flagged(
    x: u64,
    from: usize,
    width: usize,
    numbers: &mut [u64],
    place: usize,
) -> usize
    requires { ((0 < width) × (from + width < 64)) × ((place + 2 ≤ length numbers.old) × Zeros numbers.old place) }
    ensures { FlagTaken x from width place result numbers.old numbers.new }
{
    if part(x, from, 1) == 0 {
        return from + 1;
    }
    numbers[place] = 1;
    numbers[place + 1] = part(x, from + 1, width);
    from + 1 + width
}
