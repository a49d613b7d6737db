// NOTIFICATION/FACCH (44.018, 9.1.21a), field by field.
ghost use Rattle.csn1.specs.Grammar.{flagged, later, one_of};
ghost use Rattle.call.specs.Call.{call_grammar};
ghost use Rattle.facch.specs.Message.{identity, paging, counts, release6, release7, message};
ghost use Rattle.trace.specs.Fields.{led, choice};
ghost use Rattle.trace.specs.Names as names;
ghost use Rattle.trace.specs.CallKinds.{call_kinds};
ghost use Rattle.trace.specs.FacchKinds.{identity_kinds, paging_kinds, counts_kinds, release6_kinds, release7_kinds, facch_kinds};
ghost use Rattle.trace.specs.Inner.{Bound, Traced};

use crate::calls::call;
use crate::fields::{Trace, flagged, lead, note, row, stop};
use crate::kinds;

// <mobile identity : <bit string>>: reading ends behind a length octet that is not 1 to 9.
fn identity(s: &[u8], t: Trace, fields: &mut [u64]) -> Trace
    requires { Bound s.now t }
    ensures { Traced identity identity_kinds s.now t fields.old result fields.new }
{
    let n = note(s, t, kinds::IDENTITY_OCTETS, 8, &mut *fields);
    let u = n.trace;
    let octets = n.value;
    if octets < 1 {
        return stop(u);
    }
    if 9 < octets {
        return stop(u);
    }
    let many = octets as usize;
    let kinds = [kinds::IDENTITY_FIRST, kinds::IDENTITY_REST];
    let widths = [8, 8 * (many - 1)];
    row(s, u, 8 * many, &kinds, &widths, &mut *fields)
}

// <mobile identity> <channel first: bit(2)> {0|1 <eMLPP priority : bit(3)>}
fn paging(s: &[u8], t: Trace, fields: &mut [u64]) -> Trace
    requires { Bound s.now t }
    ensures { Traced paging paging_kinds s.now t fields.old result fields.new }
{
    let a = identity(s, t, &mut *fields);
    let n = note(s, a, kinds::CHANNEL_FIRST, 2, &mut *fields);
    let b = n.trace;
    flagged(
        s,
        b,
        kinds::EMLPP_PRIORITY_GIVEN,
        kinds::EMLPP_PRIORITY,
        3,
        &mut *fields,
    )
}

// {0 <Group Call information> | 1 <Paging Information>}
fn call_or_paging(s: &[u8], t: Trace, fields: &mut [u64]) -> Trace
    requires { Bound s.now t }
    ensures { Traced (one_of call_grammar paging) (choice names.paging call_kinds paging_kinds) s.now t fields.old result fields.new }
{
    let b = note(s, t, kinds::PAGING, 1, &mut *fields);
    let u = b.trace;
    if b.value == 0 {
        return call(s, u, &mut *fields);
    }
    paging(s, u, &mut *fields)
}

// {0 | 1 <CELL_GLOBAL_COUNT: bit (2)> <B22_COUNT: bit>}
fn counts(s: &[u8], t: Trace, fields: &mut [u64]) -> Trace
    requires { Bound s.now t }
    ensures { Traced (flagged counts) (led names.count_given counts_kinds) s.now t fields.old result fields.new }
{
    let f = note(s, t, kinds::COUNT_GIVEN, 1, &mut *fields);
    let u = f.trace;
    if f.value == 0 {
        return u;
    }
    let a = note(s, u, kinds::CELL_GLOBAL_COUNT, 2, &mut *fields);
    let v = a.trace;
    let b = note(s, v, kinds::B22_COUNT, 1, &mut *fields);
    b.trace
}

// The counts, and {0 | 1 <VSTK_RAND: bit (36)>}
fn parts6(s: &[u8], t: Trace, fields: &mut [u64]) -> Trace
    requires { Bound s.now t }
    ensures { Traced release6 release6_kinds s.now t fields.old result fields.new }
{
    let a = counts(s, t, &mut *fields);
    flagged(s, a, kinds::RAND_GIVEN, kinds::VSTK_RAND, 36, &mut *fields)
}

// {null | L | H <Release 6>}
fn later6(s: &[u8], t: Trace, fields: &mut [u64]) -> Trace
    requires { Bound s.now t }
    ensures { Traced (later release6) (led names.release6_given release6_kinds) s.now t fields.old result fields.new }
{
    let h = lead(s, t, kinds::RELEASE_6_GIVEN, &mut *fields);
    let u = h.trace;
    if h.value == 0 {
        return u;
    }
    parts6(s, u, &mut *fields)
}

// <Priority Uplink Access: bit == L | bit == H> <Emergency_Ind: bit == L | bit == H> {0 | 1 <Paging Cause: bit (1)>}
fn parts7(s: &[u8], t: Trace, fields: &mut [u64]) -> Trace
    requires { Bound s.now t }
    ensures { Traced release7 release7_kinds s.now t fields.old result fields.new }
{
    let a = note(s, t, kinds::UPLINK_ACCESS, 1, &mut *fields);
    let u = a.trace;
    let b = note(s, u, kinds::EMERGENCY, 1, &mut *fields);
    let v = b.trace;
    flagged(
        s,
        v,
        kinds::PAGING_CAUSE_GIVEN,
        kinds::PAGING_CAUSE,
        1,
        &mut *fields,
    )
}

// {null | L | H <Release 7>}
fn later7(s: &[u8], t: Trace, fields: &mut [u64]) -> Trace
    requires { Bound s.now t }
    ensures { Traced (later release7) (led names.release7_given release7_kinds) s.now t fields.old result fields.new }
{
    let h = lead(s, t, kinds::RELEASE_7_GIVEN, &mut *fields);
    let u = h.trace;
    if h.value == 0 {
        return u;
    }
    parts7(s, u, &mut *fields)
}

// The first octet, which nobody looks at, a call or a page, and the two releases.
pub(crate) fn message(s: &[u8], t: Trace, fields: &mut [u64]) -> Trace
    requires { Bound s.now t }
    ensures { Traced message facch_kinds s.now t fields.old result fields.new }
{
    let n = note(s, t, kinds::FIRST_OCTET, 8, &mut *fields);
    let a = n.trace;
    let b = call_or_paging(s, a, &mut *fields);
    let c = later6(s, b, &mut *fields);
    later7(s, c, &mut *fields)
}
