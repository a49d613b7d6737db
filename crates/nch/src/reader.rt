// NT/N Rest Octets read straight into an array of numbers: no record is made, so that only what is there takes time.
ghost use Rattle.std.specs.Prelude.{◌≡◌, ◌≤◌, length};
ghost use Rattle.csn1.specs.Told.{padded};
ghost use Rattle.arrays.specs.Inner.{Zeros, Left};
ghost use Rattle.nch.specs.Octets.{read_octets};
ghost use Rattle.nch.specs.Told.{read_of};
ghost use Rattle.nch.specs.Places.{numbered_at, all_length};
ghost use Rattle.nch.specs.Inner.{part_passed, all_run};
ghost use Rattle.nch.specs.NotificationNumbers.{read_numbers};

use crate::additions::{PartPassed, fill_release6, fill_release7, no_part};
use crate::lists::list_calls;
use crate::places;
use arrays::fill;
use csn1::Refusal;

// The whole message in an array of zeros. In twenty octets the NLN is always there; refusals 6 and 7 come behind all parts.
fn fill_all(s: &[u8], numbers: &mut [u64]) -> PartPassed
    requires { (all_length ≤ length numbers.old) × Zeros numbers.old numbered_at }
    ensures { Left part_passed all_run numbered_at (read_octets s.now) result numbers.old numbers.new }
{
    if s.len() != 20 {
        return no_part(csn1::ground(1));
    }
    let nln = csn1::read_flagged(s, 0, 2);
    numbers[places::NUMBERED] = nln.hasValue as u64;
    numbers[places::NLN] = nln.value;
    let c = list_calls(s, nln.at, &mut *numbers);
    if c.refusal.number != 0 {
        return no_part(c.refusal);
    }
    let six = fill_release6(s, c.at, &mut *numbers);
    if six.refusal.number != 0 {
        return no_part(six.refusal);
    }
    let seven = fill_release7(s, six.at, &mut *numbers);
    if seven.refusal.number != 0 {
        return no_part(seven.refusal);
    }
    if c.ciphered + six.reduced < six.randoms {
        return no_part(csn1::ground(6));
    }
    if c.described < seven.count {
        return no_part(csn1::ground(7));
    }
    PartPassed {
        refusal: csn1::no_refusal(),
        at: seven.at,
    }
}

// The message in an array that has all its places; a refused one leaves zeros.
fn read_wide(octets: &[u8], numbers: &mut [u64]) -> Refusal
    requires { all_length ≤ length numbers.old }
    ensures { (result ≡ (read_of octets.now).refusal)
        × (numbers.new ≡ padded 0 (length numbers.old) (read_numbers octets.now)) }
{
    fill::clear(&mut *numbers, 0);
    let all = fill_all(octets, &mut *numbers);
    if all.refusal.number != 0 {
        fill::clear(&mut *numbers, 0);
        return all.refusal;
    }
    numbers[places::USED] = all.at as u64;
    all.refusal
}

// Reads any octets, into as many places as there are.
pub fn read_into(octets: &[u8], numbers: &mut [u64]) -> Refusal
    ensures { (result ≡ (read_of octets.now).refusal)
        × (numbers.new ≡ padded 0 (length numbers.old) (read_numbers octets.now)) }
{
    if places::LENGTH <= numbers.len() {
        return read_wide(octets, &mut *numbers);
    }
    let mut all = [0u64; places::LENGTH];
    let r = read_wide(octets, &mut all);
    fill::store(&all, &mut *numbers);
    r
}
