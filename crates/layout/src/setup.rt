// Setting up: the lent octets become a receiver that holds nothing, whatever they held.
ghost use Rattle.std.specs.Prelude.{◌≡◌, ◌+◌, ◌*◌, ◌≤◌, length};
ghost use Rattle.receiver.specs.Channels.{key_count};
ghost use Rattle.csn1.specs.Told.{padded};
ghost use Rattle.arrays.specs.Runs.{stored};
ghost use Rattle.layout.specs.Layout.{state_length, is_marked, keys_octets, fresh_octets};
ghost use Rattle.layout.specs.Setup.{SetUp};

use crate::octets::{put_three, put_u32, u32_at};
use crate::{CELL, COUNT, KEYS_FROM, LENGTH, MARK, MARKED, SETS, TICK, TIMERS};
use receiver::{NO_BIT, NO_COUNT, NO_KEY, NO_NLN, Setup};

// A number for each key: those that were lent, then unused ones.
fn put_all(b: &mut [u8], at: usize, numbers: &[u32], unused: u32)
    requires { at + 4 * key_count ≤ length b.old }
    ensures { b.new ≡ stored b.old at (keys_octets (padded unused key_count numbers.now)) }
{
    for i in 0..Setup::KEYS {
        let x = numbers.get(i).copied().unwrap_or(unused);
        put_u32(b, at + 4 * i, x);
    }
}

fn fill(b: &mut [u8], s: Setup, keys: &[u32], sets: &[u32])
    requires { (length b.old ≡ state_length) × (length keys.now ≤ key_count) }
    ensures { b.new ≡ fresh_octets s keys.now sets.now }
{
    b.fill(0);
    put_u32(b, TICK, s.tick);
    put_u32(b, TIMERS, s.t3206);
    put_u32(b, TIMERS + 4, s.t3208);
    put_u32(b, TIMERS + 8, s.t3210);
    put_three(b, CELL, NO_NLN, NO_COUNT, NO_BIT);
    b[COUNT] = keys.len() as u8;
    put_u32(b, MARK, MARKED);
    put_all(b, KEYS_FROM, keys, NO_KEY);
    put_all(b, SETS, sets, 0);
}

// 13 goes before 10; a refused setup changes no octet.
pub fn setup(b: &mut [u8], s: Setup, keys: &[u32], sets: &[u32]) -> u8
    ensures { SetUp b.old s keys.now sets.now b.new result }
{
    if b.len() != LENGTH {
        return 13;
    }
    if !receiver::start::is_right(s, keys, sets) {
        return 10;
    }
    fill(b, s, keys, sets);
    0
}

// Whether the mark of a setup is there. Octets that no setup filled have it only by chance.
pub fn is_set_up(b: &[u8]) -> bool
    ensures { result ≡ is_marked b.now }
{
    if b.len() != LENGTH {
        return false;
    }
    u32_at(b, MARK) == MARKED
}
