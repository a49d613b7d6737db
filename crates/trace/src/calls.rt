// Group Call information (44.018, 9.1.21a), field by field.
ghost use Rattle.std.specs.Prelude.{◌≡◌};
ghost use Rattle.csn1.specs.Grammar.{flagged};
ghost use Rattle.call.specs.Call.{reference, allocation, frequencies, hopping_flag, channel, description, call_grammar};
ghost use Rattle.trace.specs.Fields.{led};
ghost use Rattle.trace.specs.Names.{channel_given};
ghost use Rattle.trace.specs.CallKinds.{reference_kinds, allocation_kinds, frequency_kinds, channel_kinds, description_kinds, call_kinds};
ghost use Rattle.trace.specs.Inner.{Bound, low_from, Traced, Noting};

use crate::fields::{Noted, Trace, note, row, stop};
use crate::kinds;
use bits::Got;

// A reference above 99,999,999 ends the reading behind it.
pub(crate) fn low(s: &[u8], at: usize, t: Trace) -> Trace
    ensures { result ≡ low_from s.now at t }
{
    let Got::Bits(value) = bits::fetch(s, at, 27) else {
        return t;
    };
    if 99999999 < value {
        return stop(t);
    }
    t
}

// <Group Call Reference : bit(36)>
fn reference(s: &[u8], t: Trace, fields: &mut [u64]) -> Trace
    requires { Bound s.now t }
    ensures { Traced reference reference_kinds s.now t fields.old result fields.new }
{
    let kinds = [
        kinds::CALL_REFERENCE,
        kinds::SERVICE_FLAG,
        kinds::ACKNOWLEDGEMENT_FLAG,
        kinds::PRIORITY,
        kinds::CIPHER_KEY_NUMBER,
    ];
    let widths = [27usize, 1, 1, 3, 4];
    let r = row(s, t, 36, &kinds, &widths, &mut *fields);
    low(s, t.at, r)
}

// <Mobile Allocation : <bit string>>: reading ends behind a length octet that is not 1 to 8.
fn allocation(s: &[u8], t: Trace, fields: &mut [u64]) -> Trace
    requires { Bound s.now t }
    ensures { Traced allocation allocation_kinds s.now t fields.old result fields.new }
{
    let n = note(s, t, kinds::ALLOCATION_OCTETS, 8, &mut *fields);
    let u = n.trace;
    let octets = n.value;
    if octets < 1 {
        return stop(u);
    }
    if 8 < octets {
        return stop(u);
    }
    let a = note(s, u, kinds::ALLOCATION, 8 * octets as usize, &mut *fields);
    a.trace
}

// {0 <Mobile Allocation> | 1 <Frequency Short List : bit(64)>}
fn frequencies(s: &[u8], t: Trace, fields: &mut [u64]) -> Trace
    requires { Bound s.now t }
    ensures { Traced frequencies frequency_kinds s.now t fields.old result fields.new }
{
    let b = note(s, t, kinds::SHORT_LIST, 1, &mut *fields);
    let u = b.trace;
    if b.value == 0 {
        return allocation(s, u, &mut *fields);
    }
    let l = note(s, u, kinds::FREQUENCY_SHORT_LIST, 64, &mut *fields);
    l.trace
}

// <Channel Description : bit(24)> and the hopping flag: reading ends behind a flag that says otherwise than bit 11. The value is the flag.
fn channel(s: &[u8], t: Trace, fields: &mut [u64]) -> Noted
    requires { Bound s.now t }
    ensures { Noting hopping_flag channel channel_kinds s.now t fields.old result fields.new }
{
    let c = note(s, t, kinds::CHANNEL, 24, &mut *fields);
    let u = c.trace;
    let h = note(s, u, kinds::HOPS, 1, &mut *fields);
    let w = h.trace;
    let flag = h.value;
    if (c.value >> 12) % 2 != flag {
        let end = stop(w);
        return Noted {
            trace: end,
            value: 0,
        };
    }
    Noted {
        trace: w,
        value: flag,
    }
}

// <Group Channel Description>: frequencies follow where the channel hops.
fn description(s: &[u8], t: Trace, fields: &mut [u64]) -> Trace
    requires { Bound s.now t }
    ensures { Traced description description_kinds s.now t fields.old result fields.new }
{
    let c = channel(s, t, &mut *fields);
    let u = c.trace;
    if c.value != 1 {
        return u;
    }
    frequencies(s, u, &mut *fields)
}

// {0|1 <Group Channel Description>}
fn described(s: &[u8], t: Trace, fields: &mut [u64]) -> Trace
    requires { Bound s.now t }
    ensures { Traced (flagged description) (led channel_given description_kinds) s.now t fields.old result fields.new }
{
    let f = note(s, t, kinds::CHANNEL_GIVEN, 1, &mut *fields);
    let u = f.trace;
    if f.value == 0 {
        return u;
    }
    description(s, u, &mut *fields)
}

// <Group Call information>
pub(crate) fn call(s: &[u8], t: Trace, fields: &mut [u64]) -> Trace
    requires { Bound s.now t }
    ensures { Traced call_grammar call_kinds s.now t fields.old result fields.new }
{
    let u = reference(s, t, &mut *fields);
    described(s, u, &mut *fields)
}
