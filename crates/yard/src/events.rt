// The events on a lent yard set: each is refused with its number and its bit and changes no octet, or the receiver has it, and then the calls are settled.
ghost use Rattle.std.specs.Prelude.{◌≡◌, not, eqb};
ghost use Rattle.receiver.specs.Step.{nch, facch, pch, joined, reselected, handed_over, reconfigured, left_idle, bit22, tick};
ghost use Rattle.yard.specs.Octets.{is_yard, YardFed};
ghost use Rattle.bits.specs.Field.{both, pick};
ghost use Rattle.receiver.specs.Model.{no_nln};

use crate::LENGTH;
use crate::settling::{settle, settle_aged};
use layout::answer::cell_of;
use receiver::NO_NLN;

// Whether the NLN has changed: one was known before, and another is known now.
fn has_changed(before: u8, after: u8) -> bool
    ensures { result ≡ both (not (eqb before no_nln)) (not (eqb before after)) }
{
    if before == NO_NLN {
        return false;
    }
    before != after
}

// NT/N Rest Octets.
pub fn nch(b: &mut [u8], time: u32, octets: &[u8]) -> u32
    ensures { YardFed b.old (nch time octets.now) b.new result }
{
    if b.len() != LENGTH {
        return 13;
    }
    let before = cell_of(&b[..layout::LENGTH]);
    let n = lent::events::nch(&mut b[..layout::LENGTH], time, octets);
    if n != 0 {
        return n;
    }
    let after = cell_of(&b[..layout::LENGTH]);
    settle(b, time, has_changed(before.nln, after.nln));
    0
}

// The mobile joined the call of a key: no call leaves for that.
pub fn joined(b: &mut [u8], time: u32, key: u32) -> u32
    ensures { YardFed b.old (joined time key) b.new result }
{
    if b.len() != LENGTH {
        return 13;
    }
    let n = lent::events::joined(&mut b[..layout::LENGTH], time, key);
    if n != 0 {
        return n;
    }
    settle_aged(b, time);
    0
}

// Another cell was selected: all calls leave.
pub fn reselected(b: &mut [u8], time: u32) -> u32
    ensures { YardFed b.old (reselected time) b.new result }
{
    if b.len() != LENGTH {
        return 13;
    }
    let n = lent::events::reselected(&mut b[..layout::LENGTH], time);
    if n != 0 {
        return n;
    }
    settle(b, time, true);
    0
}

// Bit 22 of COUNT has a value, 0 or 1.
pub fn bit_22(b: &mut [u8], time: u32, value: u32) -> u32
    ensures { YardFed b.old (bit22 time value) b.new result }
{
    if b.len() != LENGTH {
        return 13;
    }
    let n = lent::events::bit_22(&mut b[..layout::LENGTH], time, value);
    if n != 0 {
        return n;
    }
    settle_aged(b, time);
    0
}

// Time passed.
pub fn tick(b: &mut [u8], time: u32) -> u32
    ensures { YardFed b.old (tick time) b.new result }
{
    if b.len() != LENGTH {
        return 13;
    }
    let n = lent::events::tick(&mut b[..layout::LENGTH], time);
    if n != 0 {
        return n;
    }
    settle_aged(b, time);
    0
}

// What a yard set does not take, whatever the clock says.
fn not_taken(b: &[u8]) -> u32
    ensures { result ≡ pick (is_yard b.now) 19 13 }
{
    if b.len() != LENGTH {
        return 13;
    }
    19
}

// NOTIFICATION/FACCH: a yard set hears the NCH only.
pub fn facch(b: &[u8], time: u32, octets: &[u8]) -> u32
    ensures { YardFed b.now (facch time octets.now) b.now result }
{
    not_taken(b)
}

// An entry of the PCH, likewise.
pub fn pch(b: &[u8], time: u32, numbers: &[u64]) -> u32
    ensures { YardFed b.now (pch time numbers.now) b.now result }
{
    not_taken(b)
}

// A yard set is in no call, so that it is not handed over.
pub fn handed_over(b: &[u8], time: u32) -> u32
    ensures { YardFed b.now (handed_over time) b.now result }
{
    not_taken(b)
}

// Nor is its call reconfigured.
pub fn reconfigured(b: &[u8], time: u32) -> u32
    ensures { YardFed b.now (reconfigured time) b.now result }
{
    not_taken(b)
}

// Nor does it leave idle mode.
pub fn left_idle(b: &[u8], time: u32) -> u32
    ensures { YardFed b.now (left_idle time) b.now result }
{
    not_taken(b)
}
