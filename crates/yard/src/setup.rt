// Setting up: the lent octets become a yard set that shows nothing, whatever they held.
ghost use Rattle.std.specs.Prelude.{◌≡◌};
ghost use Rattle.yard.specs.Yard.{yard_right, all_even};
ghost use Rattle.yard.specs.Octets.{YardSetUp};

use crate::octets::zero;
use crate::{CALL_LENGTH, CALLS, LENGTH};
use receiver::Setup;

// Whether all keys are even: the keys of broadcast calls.
fn all_even(keys: &[u32]) -> bool
    ensures { result ≡ all_even keys.now }
{
    for key in keys {
        if *key % 2 != 0 {
            return false;
        }
    }
    true
}

// Whether a yard set can have these keys.
fn is_right(keys: &[u32]) -> bool
    ensures { result ≡ yard_right keys.now }
{
    keys.len() <= CALLS && all_even(keys)
}

// 13 goes before 10; a refused setup changes no octet.
pub fn setup(b: &mut [u8], s: Setup, keys: &[u32], sets: &[u32]) -> u8
    ensures { YardSetUp b.old s keys.now sets.now b.new result }
{
    if b.len() != LENGTH {
        return 13;
    }
    if !is_right(keys) {
        return 10;
    }
    let n = layout::setup::setup(&mut b[..layout::LENGTH], s, keys, sets);
    if n != 0 {
        return n;
    }
    zero(b, layout::LENGTH, CALL_LENGTH * CALLS);
    0
}
