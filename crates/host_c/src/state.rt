// The receiver on a lent state: setup, the events, and reading the answer.
ghost use Rattle.std.specs.Prelude.{◌≡◌};
ghost use Rattle.bits.specs.Field.{pick};
ghost use Rattle.receiver.specs.Step.{nch, facch, pch, joined, reselected, handed_over, reconfigured, left_idle, bit22, tick};
ghost use Rattle.layout.specs.Layout.{is_state, last_of};
ghost use Rattle.layout.specs.Setup.{SetUp};
ghost use Rattle.layout.specs.Parts.{part_of};
ghost use Rattle.lent.specs.Events.{Fed};

#[unsafe(no_mangle)]
pub extern "C" fn asternhaken_setup(
    state: &mut [u8],
    keys: &[u32],
    sets: &[u32],
    first: u32,
    t3206: u32,
    t3208: u32,
    t3210: u32,
) -> u32
    ensures { SetUp state.old (record { tick = first; t3206 = t3206; t3208 = t3208; t3210 = t3210 }) keys.now sets.now state.new result }
{
    host::state::asternhaken_setup(state, keys, sets, first, t3206, t3208, t3210)
}

#[unsafe(no_mangle)]
pub extern "C" fn asternhaken_nch(state: &mut [u8], time: u32, octets: &[u8]) -> u32
    ensures { Fed state.old (nch time octets.now) state.new result }
{
    host::state::asternhaken_nch(state, time, octets)
}

#[unsafe(no_mangle)]
pub extern "C" fn asternhaken_facch(state: &mut [u8], time: u32, octets: &[u8]) -> u32
    ensures { Fed state.old (facch time octets.now) state.new result }
{
    host::state::asternhaken_facch(state, time, octets)
}

#[unsafe(no_mangle)]
pub extern "C" fn asternhaken_pch(state: &mut [u8], time: u32, entry: &[u64]) -> u32
    ensures { Fed state.old (pch time entry.now) state.new result }
{
    host::state::asternhaken_pch(state, time, entry)
}

#[unsafe(no_mangle)]
pub extern "C" fn asternhaken_joined(state: &mut [u8], time: u32, key: u32) -> u32
    ensures { Fed state.old (joined time key) state.new result }
{
    host::state::asternhaken_joined(state, time, key)
}

#[unsafe(no_mangle)]
pub extern "C" fn asternhaken_reselected(state: &mut [u8], time: u32) -> u32
    ensures { Fed state.old (reselected time) state.new result }
{
    host::state::asternhaken_reselected(state, time)
}

#[unsafe(no_mangle)]
pub extern "C" fn asternhaken_handed_over(state: &mut [u8], time: u32) -> u32
    ensures { Fed state.old (handed_over time) state.new result }
{
    host::state::asternhaken_handed_over(state, time)
}

#[unsafe(no_mangle)]
pub extern "C" fn asternhaken_reconfigured(state: &mut [u8], time: u32) -> u32
    ensures { Fed state.old (reconfigured time) state.new result }
{
    host::state::asternhaken_reconfigured(state, time)
}

#[unsafe(no_mangle)]
pub extern "C" fn asternhaken_left_idle(state: &mut [u8], time: u32) -> u32
    ensures { Fed state.old (left_idle time) state.new result }
{
    host::state::asternhaken_left_idle(state, time)
}

#[unsafe(no_mangle)]
pub extern "C" fn asternhaken_bit_22(state: &mut [u8], time: u32, value: u32) -> u32
    ensures { Fed state.old (bit22 time value) state.new result }
{
    host::state::asternhaken_bit_22(state, time, value)
}

#[unsafe(no_mangle)]
pub extern "C" fn asternhaken_tick(state: &mut [u8], time: u32) -> u32
    ensures { Fed state.old (tick time) state.new result }
{
    host::state::asternhaken_tick(state, time)
}

// One number of the answer to the last accepted event; what is not there is 0.
#[unsafe(no_mangle)]
pub extern "C" fn asternhaken_read(state: &[u8], entry: u32, part: u32, value: &mut u64) -> u32
    ensures { (result ≡ pick (is_state state.now) 0 13)
        × (value.new ≡ pick (is_state state.now) (part_of (last_of state.now) entry part) 0) }
{
    host::state::asternhaken_read(state, entry, part, value)
}
