// Who is paged by the last accepted event, as numbers.
ghost use Rattle.std.specs.Prelude.{◌≡◌, [], length};
ghost use Rattle.bits.specs.Field.{pick};
ghost use Rattle.csn1.specs.Told.{padded};
ghost use Rattle.layout.specs.Layout.{is_state, last_of};
ghost use Rattle.layout.specs.Parts.{paged_numbers};

use arrays::fill;
use layout::{LENGTH, parts};

// Into as many places as there are; what is not there is 0.
pub fn paged(b: &[u8], numbers: &mut [u64]) -> u8
    ensures { (result ≡ pick (is_state b.now) 0 13)
        × (numbers.new ≡ padded 0 (length numbers.old) (pick (is_state b.now) (paged_numbers (last_of b.now).paged) [])) }
{
    if b.len() != LENGTH {
        fill::clear(&mut *numbers, 0);
        return 13;
    }
    let all = parts::paged_numbers(parts::paged_of(b));
    fill::store(&all, &mut *numbers);
    0
}
