// What a yard set shows: how many calls, and each as numbers.
ghost use Rattle.std.specs.Prelude.{◌≡◌, [], ◌<◌, length, get_or, MatchOption};
ghost use Rattle.bits.specs.Field.{pick};
ghost use Rattle.csn1.specs.Told.{padded};
ghost use Rattle.yard.specs.Yard.{call_count, called_in, called_no};
ghost use Rattle.yard.specs.Octets.{yard_length, is_yard, call_no, yard_of};
ghost use Rattle.yard.specs.Inner.{is_shown, HasNumbers, numbers_of};

use crate::octets::u32_at;
use crate::{CALL_LENGTH, CALLS, LENGTH};
use arrays::fill;
use layout::parts::{carries, told_part};

// Whether there is a call at a place.
fn shows(b: &[u8], i: usize) -> bool
    requires { (length b.now ≡ yard_length) × (i < call_count) }
    ensures { result ≡ is_shown (call_no b.now i) }
{
    carries(u64::from(b[layout::LENGTH + CALL_LENGTH * i + 16]))
}

// How many calls are shown.
pub fn count(b: &[u8]) -> u64
    ensures { result ≡ pick (is_yard b.now) (length (called_in (yard_of b.now))) 0 }
{
    if b.len() != LENGTH {
        return 0;
    }
    let mut n: u64 = 0;
    for i in 0..CALLS {
        n += u64::from(shows(b, i));
    }
    n
}

// The place of the n-th call shown, counted from 0, where there are so many.
fn place_of(b: &[u8], n: usize) -> Option<usize>
    requires { length b.now ≡ yard_length }
    ensures { MatchOption result (called_no (yard_of b.now) n ≡ []) (HasNumbers b.now n) }
{
    let mut ahead = n;
    for i in 0..CALLS {
        if shows(b, i) {
            if ahead == 0 {
                return Some(i);
            }
            ahead -= 1;
        }
    }
    None
}

// What is told of a call, and then its age.
const AGE: usize = 2 + 30 + 2;

// A number of a call: of what it was told, or its age by the receiver's tick.
fn number_at(b: &[u8], i: usize, part: usize) -> u64
    requires { (length b.now ≡ yard_length) × (i < call_count) }
    ensures { result ≡ get_or (numbers_of b.now i) part 0 }
{
    let at = layout::LENGTH + CALL_LENGTH * i;
    if part < AGE {
        return told_part(b, at + 8, part);
    }
    if part == AGE {
        return u64::from(clock::elapsed(u32_at(b, 0), u32_at(b, at)));
    }
    0
}

// All of them, into as many places as there are.
fn put_numbers(b: &[u8], i: usize, numbers: &mut [u64])
    requires { (length b.now ≡ yard_length) × (i < call_count) }
    ensures { numbers.new ≡ padded 0 (length numbers.old) (numbers_of b.now i) }
{
    for (k, number) in numbers.iter_mut().enumerate() {
        *number = number_at(b, i, k);
    }
}

// The n-th call shown, counted from 0 by rising key, into as many places as there are; what is not there is 0.
pub fn call(b: &[u8], n: usize, numbers: &mut [u64]) -> u8
    ensures { (result ≡ pick (is_yard b.now) 0 13)
        × (numbers.new ≡ padded 0 (length numbers.old) (pick (is_yard b.now) (called_no (yard_of b.now) n) [])) }
{
    if b.len() != LENGTH {
        fill::clear(&mut *numbers, 0);
        return 13;
    }
    let Some(i) = place_of(b, n) else {
        fill::clear(&mut *numbers, 0);
        return 0;
    };
    put_numbers(b, i, &mut *numbers);
    0
}
