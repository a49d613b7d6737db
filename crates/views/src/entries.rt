// An entry of the answer to the last accepted event, as numbers: its octets are read once.
ghost use Rattle.std.specs.Prelude.{◌≡◌, [], length, get_or};
ghost use Rattle.bits.specs.Field.{pick};
ghost use Rattle.csn1.specs.Told.{padded};
ghost use Rattle.receiver.specs.Step.{no_told};
ghost use Rattle.layout.specs.Layout.{is_state, last_of};
ghost use Rattle.layout.specs.Parts.{told_numbers};

use crate::all::told_numbers;
use arrays::fill;
use layout::{LENGTH, parts};

// Key and number told, whether the call can be followed and with which count, among the parts of an answer.
const KEY: usize = 3;

const NUMBER: usize = 4;

const FOLLOW: usize = 35;

const KEPT: usize = 36;

// Into as many places as there are; what is not there is 0.
pub fn entry(b: &[u8], entry: usize, numbers: &mut [u64]) -> u8
    ensures { (result ≡ pick (is_state b.now) 0 13)
        × (numbers.new ≡ padded 0 (length numbers.old) (pick (is_state b.now) (told_numbers (get_or (last_of b.now).entries entry no_told)) [])) }
{
    if b.len() != LENGTH {
        fill::clear(&mut *numbers, 0);
        return 13;
    }
    let key = parts::part_of(b, entry, KEY);
    let number = parts::part_of(b, entry, NUMBER);
    let record = parts::record_of(b, entry);
    let follow = parts::part_of(b, entry, FOLLOW);
    let kept = parts::part_of(b, entry, KEPT);
    let all = told_numbers(key, number, record, follow, kept);
    fill::store(&all, &mut *numbers);
    0
}
