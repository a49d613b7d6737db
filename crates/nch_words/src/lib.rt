// NT/N Rest Octets taken from words: no field is asked for, and each entry asks once whether the place is still inside. What is not taken so is read by asking, from the beginning.
#![tactic(auto)]

ghost use Rattle.std.specs.Prelude.{◌≡◌, ◌≤◌, length};
ghost use Rattle.csn1.specs.Told.{padded};
ghost use Rattle.arrays.specs.Inner.{Zeros};
ghost use Rattle.nch.specs.Told.{read_of};
ghost use Rattle.nch.specs.Places.{numbered_at, all_length};
ghost use Rattle.nch.specs.NotificationNumbers.{read_numbers};
ghost use Rattle.nch_words.specs.Inner.{AllTaken};

use additions::{take_release6, take_release7};
use arrays::fill;
use calls::take_calls;
use csn1::Refusal;
use nch::places;
use parts::{TakenPart, no_part};
use words::array;

mod additions;
mod calls;
mod lists;
mod parts;

// The whole message in an array of zeros; not done where it is not twenty octets, a part is not, or refusals 6 and 7 are due.
fn take_all(s: &[u8], numbers: &mut [u64]) -> TakenPart
    requires { (all_length ≤ length numbers.old) × Zeros numbers.old numbered_at }
    ensures { AllTaken s.now result numbers.old numbers.new }
{
    if s.len() != 20 {
        return no_part();
    }
    let w = array::load(s);
    let nln = csn1::read_flagged(s, 0, 2);
    numbers[places::NUMBERED] = nln.hasValue as u64;
    numbers[places::NLN] = nln.value;
    let c = take_calls(s, &w, nln.at, &mut *numbers);
    if !c.done {
        return no_part();
    }
    let six = take_release6(s, &w, c.at, &mut *numbers);
    if !six.done {
        return no_part();
    }
    let seven = take_release7(s, &w, six.at, &mut *numbers);
    if !seven.done {
        return no_part();
    }
    if c.ciphered + six.reduced < six.randoms {
        return no_part();
    }
    if c.described < seven.count {
        return no_part();
    }
    TakenPart {
        done: true,
        at: seven.at,
    }
}

// The message in an array that has all its places. What was not taken is read from the beginning, into zeros again.
fn read_wide(octets: &[u8], numbers: &mut [u64]) -> Refusal
    requires { all_length ≤ length numbers.old }
    ensures { (result ≡ (read_of octets.now).refusal)
        × (numbers.new ≡ padded 0 (length numbers.old) (read_numbers octets.now)) }
{
    fill::clear(&mut *numbers, 0);
    let all = take_all(octets, &mut *numbers);
    if !all.done {
        return nch::reader::read_into(octets, &mut *numbers);
    }
    numbers[places::USED] = all.at as u64;
    csn1::no_refusal()
}

// Reads any octets, into as many places as there are: what `nch::reader::read_into` reads.
pub fn read_into(octets: &[u8], numbers: &mut [u64]) -> Refusal
    ensures { (result ≡ (read_of octets.now).refusal)
        × (numbers.new ≡ padded 0 (length numbers.old) (read_numbers octets.now)) }
{
    if places::LENGTH <= numbers.len() {
        return read_wide(octets, &mut *numbers);
    }
    nch::reader::read_into(octets, &mut *numbers)
}
