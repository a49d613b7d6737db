// The yard set on a lent state: setup, the events, and what it shows.
ghost use Rattle.std.specs.Prelude.{◌≡◌, [], length};
ghost use Rattle.bits.specs.Field.{pick};
ghost use Rattle.csn1.specs.Told.{padded};
ghost use Rattle.receiver.specs.Step.{nch, facch, pch, joined, reselected, handed_over, reconfigured, left_idle, bit22, tick};
ghost use Rattle.yard.specs.Yard.{called_in, called_no};
ghost use Rattle.yard.specs.Octets.{is_yard, yard_of, YardFed, YardSetUp};

#[unsafe(no_mangle)]
pub extern "C" fn asternhaken_yard_setup(
    state: &mut [u8],
    keys: &[u32],
    sets: &[u32],
    first: u32,
    t3206: u32,
    t3208: u32,
    t3210: u32,
) -> u32
    ensures { YardSetUp state.old (record { tick = first; t3206 = t3206; t3208 = t3208; t3210 = t3210 }) keys.now sets.now state.new result }
{
    host_yard::state::asternhaken_yard_setup(state, keys, sets, first, t3206, t3208, t3210)
}

#[unsafe(no_mangle)]
pub extern "C" fn asternhaken_yard_nch(state: &mut [u8], time: u32, octets: &[u8]) -> u32
    ensures { YardFed state.old (nch time octets.now) state.new result }
{
    host_yard::state::asternhaken_yard_nch(state, time, octets)
}

#[unsafe(no_mangle)]
pub extern "C" fn asternhaken_yard_joined(state: &mut [u8], time: u32, key: u32) -> u32
    ensures { YardFed state.old (joined time key) state.new result }
{
    host_yard::state::asternhaken_yard_joined(state, time, key)
}

#[unsafe(no_mangle)]
pub extern "C" fn asternhaken_yard_reselected(state: &mut [u8], time: u32) -> u32
    ensures { YardFed state.old (reselected time) state.new result }
{
    host_yard::state::asternhaken_yard_reselected(state, time)
}

#[unsafe(no_mangle)]
pub extern "C" fn asternhaken_yard_bit_22(state: &mut [u8], time: u32, value: u32) -> u32
    ensures { YardFed state.old (bit22 time value) state.new result }
{
    host_yard::state::asternhaken_yard_bit_22(state, time, value)
}

#[unsafe(no_mangle)]
pub extern "C" fn asternhaken_yard_tick(state: &mut [u8], time: u32) -> u32
    ensures { YardFed state.old (tick time) state.new result }
{
    host_yard::state::asternhaken_yard_tick(state, time)
}

// What a yard set does not take: 19 before the clock is looked at. The octets are only looked at.
#[unsafe(no_mangle)]
pub extern "C" fn asternhaken_yard_facch(state: &[u8], time: u32, octets: &[u8]) -> u32
    ensures { YardFed state.now (facch time octets.now) state.now result }
{
    host_yard::state::asternhaken_yard_facch(state, time, octets)
}

#[unsafe(no_mangle)]
pub extern "C" fn asternhaken_yard_pch(state: &[u8], time: u32, entry: &[u64]) -> u32
    ensures { YardFed state.now (pch time entry.now) state.now result }
{
    host_yard::state::asternhaken_yard_pch(state, time, entry)
}

#[unsafe(no_mangle)]
pub extern "C" fn asternhaken_yard_handed_over(state: &[u8], time: u32) -> u32
    ensures { YardFed state.now (handed_over time) state.now result }
{
    host_yard::state::asternhaken_yard_handed_over(state, time)
}

#[unsafe(no_mangle)]
pub extern "C" fn asternhaken_yard_reconfigured(state: &[u8], time: u32) -> u32
    ensures { YardFed state.now (reconfigured time) state.now result }
{
    host_yard::state::asternhaken_yard_reconfigured(state, time)
}

#[unsafe(no_mangle)]
pub extern "C" fn asternhaken_yard_left_idle(state: &[u8], time: u32) -> u32
    ensures { YardFed state.now (left_idle time) state.now result }
{
    host_yard::state::asternhaken_yard_left_idle(state, time)
}

// How many calls are shown.
#[unsafe(no_mangle)]
pub extern "C" fn asternhaken_yard_count(state: &[u8], count: &mut u64) -> u32
    ensures { (result ≡ pick (is_yard state.now) 0 13)
        × (count.new ≡ pick (is_yard state.now) (length (called_in (yard_of state.now))) 0) }
{
    host_yard::state::asternhaken_yard_count(state, count)
}

// One of them, counted from 0 by rising key, into as many places as there are; what is not there is 0.
#[unsafe(no_mangle)]
pub extern "C" fn asternhaken_yard_call_numbers(state: &[u8], i: u32, numbers: &mut [u64]) -> u32
    ensures { (result ≡ pick (is_yard state.now) 0 13)
        × (numbers.new ≡ padded 0 (length numbers.old) (pick (is_yard state.now) (called_no (yard_of state.now) i) [])) }
{
    host_yard::state::asternhaken_yard_call_numbers(state, i, numbers)
}
