// Arrays of numbers, filled.
ghost use Rattle.std.specs.Prelude.{◌≡◌, ◌+◌, leb, length, take, set};
ghost use Rattle.bits.specs.Field.{pick};
ghost use Rattle.csn1.specs.Told.{padded};
ghost use Rattle.arrays.specs.Runs.{stored};

// The values in the first places, as many as both have.
// Stays: an index, here and below. By std's `copy_from_slice` and `fill`, which were tried, few numbers are stored by calls, and a trace took up to 2.2 times the instructions.
fn copy(values: &[u64], numbers: &mut [u64])
    ensures { take (length values.now) numbers.new ≡ take (length numbers.old) values.now }
{
    let n = values.len().min(numbers.len());
    for i in 0..n {
        numbers[i] = values[i];
    }
}

// Zeros in the places from a place on.
// Stays: an index, as above.
pub fn clear(numbers: &mut [u64], from: usize)
    ensures { numbers.new ≡ padded 0 (length numbers.old) (take from numbers.old) }
{
    for i in from..numbers.len() {
        numbers[i] = 0;
    }
}

// The values from the start on and zeros behind them; a value that has no place is left out.
pub fn store(values: &[u64], numbers: &mut [u64])
    ensures { numbers.new ≡ padded 0 (length numbers.old) values.now }
{
    copy(values, &mut *numbers);
    clear(&mut *numbers, values.len());
}

// The values from a place on, where all of them have places; else nothing.
// Stays: an index, as above.
pub fn run(values: &[u64], numbers: &mut [u64], at: usize)
    ensures { numbers.new ≡ pick (leb (at + length values.now) (length numbers.old))
        (stored numbers.old at values.now) numbers.old }
{
    if values.len() <= numbers.len() && at <= numbers.len() - values.len() {
        for i in 0..values.len() {
            numbers[at + i] = values[i];
        }
    }
}

// One value, where it has a place.
pub fn put(numbers: &mut [u64], at: usize, v: u64)
    ensures { numbers.new ≡ set numbers.old at v }
{
    // Stays: tried `get_mut`; after it a proof knows no number of the array.
    if at < numbers.len() {
        numbers[at] = v;
    }
}
