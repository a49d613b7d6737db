// NT/N Rest Octets (44.018, 10.5.2.22c), field by field.
ghost use Rattle.csn1.specs.Grammar.{number, listed, flagged, later};
ghost use Rattle.call.specs.Call.{call_grammar};
ghost use Rattle.nch.specs.Octets.{reduced, random, release6, amr, sms_bits, release7, rest_parts};
ghost use Rattle.trace.specs.Fields.{one, led};
ghost use Rattle.trace.specs.Names.{call_given, reduced_given, random_given, release6_given, emergency_mark_given, emergency_mark, amr_given, sms_given, release7_given};
ghost use Rattle.trace.specs.CallKinds.{call_kinds};
ghost use Rattle.trace.specs.NchKinds.{reduced_kinds, random_kinds, release6_kinds, amr_kinds, sms_kinds, release7_kinds, nch_kinds};
ghost use Rattle.trace.specs.Inner.{Bound, Traced};

use crate::calls::{call, low};
use crate::fields::{Trace, flagged, lead, note, row};
use crate::kinds;

// <List of Group Call NCH information>
fn calls(s: &[u8], t: Trace, fields: &mut [u64]) -> Trace
    requires { Bound s.now t }
    ensures { Traced (listed call_grammar) (led call_given call_kinds) s.now t fields.old result fields.new }
{
    let mut u = t;
    'entries: loop {
        let f = note(s, u, kinds::CALL_GIVEN, 1, &mut *fields);
        let v = f.trace;
        if f.value == 0 {
            break 'entries v;
        }
        u = call(s, v, &mut *fields);
    }
}

// <Reduced GCR: bit (28)>
fn reduced(s: &[u8], t: Trace, fields: &mut [u64]) -> Trace
    requires { Bound s.now t }
    ensures { Traced reduced reduced_kinds s.now t fields.old result fields.new }
{
    let kinds = [kinds::REDUCED_REFERENCE, kinds::REDUCED_SERVICE_FLAG];
    let widths = [27usize, 1];
    let r = row(s, t, 28, &kinds, &widths, &mut *fields);
    low(s, t.at, r)
}

// <List of Reduced GCR>
fn reduceds(s: &[u8], t: Trace, fields: &mut [u64]) -> Trace
    requires { Bound s.now t }
    ensures { Traced (listed reduced) (led reduced_given reduced_kinds) s.now t fields.old result fields.new }
{
    let mut u = t;
    'entries: loop {
        let f = note(s, u, kinds::REDUCED_GIVEN, 1, &mut *fields);
        let v = f.trace;
        if f.value == 0 {
            break 'entries v;
        }
        u = reduced(s, v, &mut *fields);
    }
}

// <Segment Id: bit> {0 | 1 <VSTK_RAND: bit (36)>}
fn random(s: &[u8], t: Trace, fields: &mut [u64]) -> Trace
    requires { Bound s.now t }
    ensures { Traced random random_kinds s.now t fields.old result fields.new }
{
    let n = note(s, t, kinds::SEGMENT_ID, 1, &mut *fields);
    let u = n.trace;
    flagged(s, u, kinds::RAND_GIVEN, kinds::VSTK_RAND, 36, &mut *fields)
}

// <List of VSTK_RAND information>
fn randoms(s: &[u8], t: Trace, fields: &mut [u64]) -> Trace
    requires { Bound s.now t }
    ensures { Traced (listed random) (led random_given random_kinds) s.now t fields.old result fields.new }
{
    let mut u = t;
    'entries: loop {
        let f = note(s, u, kinds::RANDOM_GIVEN, 1, &mut *fields);
        let v = f.trace;
        if f.value == 0 {
            break 'entries v;
        }
        u = random(s, v, &mut *fields);
    }
}

// {0 | 1 <CELL_GLOBAL_COUNT: bit (2)>} <List of Reduced GCR> <List of VSTK_RAND information>
fn parts6(s: &[u8], t: Trace, fields: &mut [u64]) -> Trace
    requires { Bound s.now t }
    ensures { Traced release6 release6_kinds s.now t fields.old result fields.new }
{
    let a = flagged(
        s,
        t,
        kinds::COUNT_GIVEN,
        kinds::CELL_GLOBAL_COUNT,
        2,
        &mut *fields,
    );
    let b = reduceds(s, a, &mut *fields);
    randoms(s, b, &mut *fields)
}

// {null | L | H <Release 6>}
fn later6(s: &[u8], t: Trace, fields: &mut [u64]) -> Trace
    requires { Bound s.now t }
    ensures { Traced (later release6) (led release6_given release6_kinds) s.now t fields.old result fields.new }
{
    let h = lead(s, t, kinds::RELEASE_6_GIVEN, &mut *fields);
    let u = h.trace;
    if h.value == 0 {
        return u;
    }
    parts6(s, u, &mut *fields)
}

// <List of Emergency information>
fn marks(s: &[u8], t: Trace, fields: &mut [u64]) -> Trace
    requires { Bound s.now t }
    ensures { Traced (listed (number 1)) (led emergency_mark_given (one emergency_mark)) s.now t fields.old result fields.new }
{
    let mut u = t;
    'entries: loop {
        let f = note(s, u, kinds::EMERGENCY_MARK_GIVEN, 1, &mut *fields);
        let v = f.trace;
        if f.value == 0 {
            break 'entries v;
        }
        let m = note(s, v, kinds::EMERGENCY_MARK, 1, &mut *fields);
        u = m.trace;
    }
}

// {0 | 1 {0|1 <FR AMR Config: bit(4)>} {0|1 <HR AMR Config: bit(4)>}}
fn amr(s: &[u8], t: Trace, fields: &mut [u64]) -> Trace
    requires { Bound s.now t }
    ensures { Traced (flagged amr) (led amr_given amr_kinds) s.now t fields.old result fields.new }
{
    let f = note(s, t, kinds::AMR_GIVEN, 1, &mut *fields);
    let u = f.trace;
    if f.value == 0 {
        return u;
    }
    let a = flagged(
        s,
        u,
        kinds::FR_AMR_GIVEN,
        kinds::FR_AMR_CONFIG,
        4,
        &mut *fields,
    );
    flagged(
        s,
        a,
        kinds::HR_AMR_GIVEN,
        kinds::HR_AMR_CONFIG,
        4,
        &mut *fields,
    )
}

// {0 | 1 <SMS Data Confidentiality Ind: bit(1)> <SMS Guaranteed Privacy Ind: bit(1)>}
fn sms(s: &[u8], t: Trace, fields: &mut [u64]) -> Trace
    requires { Bound s.now t }
    ensures { Traced (flagged sms_bits) (led sms_given sms_kinds) s.now t fields.old result fields.new }
{
    let f = note(s, t, kinds::SMS_GIVEN, 1, &mut *fields);
    let u = f.trace;
    if f.value == 0 {
        return u;
    }
    let a = note(s, u, kinds::SMS_CONFIDENTIALITY, 1, &mut *fields);
    let v = a.trace;
    let b = note(s, v, kinds::SMS_PRIVACY, 1, &mut *fields);
    b.trace
}

// <List of Emergency information> {0 | 1 <Priority Uplink access: bit(1)>} and the AMR and SMS parts
fn parts7(s: &[u8], t: Trace, fields: &mut [u64]) -> Trace
    requires { Bound s.now t }
    ensures { Traced release7 release7_kinds s.now t fields.old result fields.new }
{
    let a = marks(s, t, &mut *fields);
    let b = flagged(
        s,
        a,
        kinds::UPLINK_GIVEN,
        kinds::UPLINK_ACCESS,
        1,
        &mut *fields,
    );
    let c = amr(s, b, &mut *fields);
    sms(s, c, &mut *fields)
}

// {null | L | H <Release 7>}
fn later7(s: &[u8], t: Trace, fields: &mut [u64]) -> Trace
    requires { Bound s.now t }
    ensures { Traced (later release7) (led release7_given release7_kinds) s.now t fields.old result fields.new }
{
    let h = lead(s, t, kinds::RELEASE_7_GIVEN, &mut *fields);
    let u = h.trace;
    if h.value == 0 {
        return u;
    }
    parts7(s, u, &mut *fields)
}

// {0 | 1 <NLN(NCH): bit (2)>} <List of Group Call NCH information> and the two releases. Refusals 6 and 7 are met once all is read: they list nothing.
pub(crate) fn rest(s: &[u8], t: Trace, fields: &mut [u64]) -> Trace
    requires { Bound s.now t }
    ensures { Traced rest_parts nch_kinds s.now t fields.old result fields.new }
{
    let a = flagged(s, t, kinds::NLN_GIVEN, kinds::NLN, 2, &mut *fields);
    let b = calls(s, a, &mut *fields);
    let c = later6(s, b, &mut *fields);
    later7(s, c, &mut *fields)
}
