// The halves held: how many, each as numbers, and when the next one runs out.
ghost use Rattle.std.specs.Prelude.{◌≡◌, [], true, ◌<◌, length, MatchOption};
ghost use Rattle.bits.specs.Field.{pick};
ghost use Rattle.csn1.specs.Told.{padded};
ghost use Rattle.receiver.specs.Channels.{places};
ghost use Rattle.receiver.specs.Model.{is_held};
ghost use Rattle.layout.specs.Layout.{state_length, is_state, slot_no, decode_of};
ghost use Rattle.views.specs.Held.{held_list, held_numbers, numbers_no, left_of, sooner, least_left};
ghost use Rattle.views.specs.Inner.{HasNumbers};

use crate::all;
use arrays::fill;
use layout::{LENGTH, places};
use receiver::{PLACES, channels};

// What stands for the next expiry where no half is held.
const NO_EXPIRY: u32 = 4294967295;

// Whether a place holds a half.
fn holds(b: &[u8], i: usize) -> bool
    requires { (length b.now ≡ state_length) × (i < places) }
    ensures { result ≡ is_held (slot_no b.now i) }
{
    places::half_at(b, i) != 0
}

// How many halves are held.
pub fn count(b: &[u8]) -> u64
    ensures { result ≡ pick (is_state b.now) (length (held_list (decode_of b.now))) 0 }
{
    if b.len() != LENGTH {
        return 0;
    }
    let mut n: u64 = 0;
    for i in 0..PLACES {
        n += u64::from(holds(b, i));
    }
    n
}

// The place of the n-th half held, counted from 0, where there are so many.
fn place_of(b: &[u8], n: usize) -> Option<usize>
    requires { length b.now ≡ state_length }
    ensures { MatchOption result (numbers_no (decode_of b.now) n ≡ []) (HasNumbers b.now n) }
{
    let mut ahead = n;
    for i in 0..PLACES {
        if holds(b, i) {
            if ahead == 0 {
                return Some(i);
            }
            ahead -= 1;
        }
    }
    None
}

// The numbers of the half at a place.
fn numbers_at(b: &[u8], i: usize) -> [u64; all::HELD]
    requires { (length b.now ≡ state_length) × ((i < places) × (is_held (slot_no b.now i) ≡ true)) }
    ensures { result ≡ held_numbers (decode_of b.now) (i, slot_no b.now i) }
{
    // A place fits an octet: said so, the compiler divides it by the channels without a division of 64 bits.
    let i = usize::from(i as u8);
    let key = u64::from(places::key_at(b, channels::index_in(i)));
    let channel = channels::side_of(i) as u64;
    let half = u64::from(places::half_at(b, i));
    let left = u64::from(places::left_at(b, i));
    let record = places::held_at(b, i);
    all::held_numbers(key, channel, half, left, record)
}

// The n-th half held, counted from 0 in the order of the places, into as many places as there are; what is not there is 0.
pub fn half(b: &[u8], n: usize, numbers: &mut [u64]) -> u8
    ensures { (result ≡ pick (is_state b.now) 0 13)
        × (numbers.new ≡ padded 0 (length numbers.old) (pick (is_state b.now) (numbers_no (decode_of b.now) n) [])) }
{
    if b.len() != LENGTH {
        fill::clear(&mut *numbers, 0);
        return 13;
    }
    let Some(i) = place_of(b, n) else {
        fill::clear(&mut *numbers, 0);
        return 0;
    };
    let found = numbers_at(b, i);
    fill::store(&found, &mut *numbers);
    0
}

// The lesser of a time and of what is left to the half at a place, where one is held there.
fn sooner_at(b: &[u8], i: usize, least: u32) -> u32
    requires { (length b.now ≡ state_length) × (i < places) }
    ensures { result ≡ pick (is_held (slot_no b.now i)) (sooner least (left_of (decode_of b.now) (i, slot_no b.now i))) least }
{
    if holds(b, i) {
        least.min(places::left_at(b, i))
    } else {
        least
    }
}

// In how many milliseconds, by the state's tick, the next half runs out.
pub fn next_expiry(b: &[u8]) -> u32
    ensures { result ≡ pick (is_state b.now) (least_left (decode_of b.now)) 0 }
{
    if b.len() != LENGTH {
        return 0;
    }
    let mut least: u32 = NO_EXPIRY;
    for i in 0..PLACES {
        least = sooner_at(b, i, least);
    }
    least
}
