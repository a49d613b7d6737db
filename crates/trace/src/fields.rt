// Fields one by one: each is fetched, and its four numbers go into the array where it has places for them.
ghost use Rattle.std.specs.Prelude.{◌≡◌, ◌+◌, ◌*◌, ◌≤◌, length};
ghost use Rattle.bits.specs.Field.{field};
ghost use Rattle.csn1.specs.Format.{total};
ghost use Rattle.csn1.specs.Grammar.{number, numbers, flagged};
ghost use Rattle.trace.specs.Fields.{one, row, led, met_at, side_by_side, put_met, listing};
ghost use Rattle.trace.specs.Inner.{Bound, stopped, Traced, Noting, Leading, Row, Whole};

use arrays::fill;
use bits::Got;

// How far a message was listed: the bit behind the last field, how many fields were met, and whether reading goes on. Once it does not, nothing more is listed.
#[derive(Clone, Copy)]
pub struct Trace {
    pub at: usize,
    pub met: usize,
    pub good: bool,
}

// A trace behind a part, and a number that was read in it: 0 where the part was refused.
#[derive(Clone, Copy)]
pub struct Noted {
    pub trace: Trace,
    pub value: u64,
}

// Reading ends here.
pub(crate) fn stop(t: Trace) -> Trace
    ensures { result ≡ stopped t }
{
    Trace {
        at: t.at,
        met: t.met,
        good: false,
    }
}

// The n-th field of the array: its bits are there.
fn put(s: &[u8], at: usize, width: usize, kind: u64, n: usize, fields: &mut [u64]) -> u64
    requires { (at + width ≤ length s.now * 8) × (width ≤ 64) × (length s.now ≤ 23) × (n ≤ 1000) }
    ensures { (result ≡ field s.now at width) × (fields.new ≡ put_met fields.old n (met_at kind width s.now at)) }
{
    let Got::Bits(value) = bits::fetch(s, at, width) else {
        return 0;
    };
    let numbers = [kind, at as u64, width as u64, value];
    fill::run(&numbers, &mut *fields, 4 * n);
    value
}

// < number : bit (width) >
pub(crate) fn note(s: &[u8], t: Trace, kind: u64, width: usize, fields: &mut [u64]) -> Noted
    requires { Bound s.now t × (1 ≤ width) × (width ≤ 64) }
    ensures { Noting (λ v. v) (number width) (one kind) s.now t fields.old result fields.new }
{
    if !t.good {
        return Noted { trace: t, value: 0 };
    }
    let at = t.at;
    let met = t.met;
    if s.len() * 8 < at + width {
        let end = stop(t);
        return Noted {
            trace: end,
            value: 0,
        };
    }
    let value = put(s, at, width, kind, met, &mut *fields);
    let next = Trace {
        at: at + width,
        met: met + 1,
        good: true,
    };
    Noted { trace: next, value }
}

// Fields side by side, whose bits are all there.
fn side_by_side(
    s: &[u8],
    from: usize,
    first: usize,
    kinds: &[u64],
    widths: &[usize],
    fields: &mut [u64],
)
    requires { (from + total widths.now ≤ length s.now * 8) × Row kinds.now widths.now × (length s.now ≤ 23) × (first + length widths.now ≤ 1000) }
    ensures { fields.new ≡ listing fields.old first (side_by_side kinds.now widths.now s.now from) }
{
    let mut i: usize = 0;
    let mut at = from;
    while i < widths.len() {
        let width = widths[i];
        let kind = kinds[i];
        put(s, at, width, kind, first + i, &mut *fields);
        at += width;
        i += 1;
    }
}

// < number : bit (n) > < number : bit (m) > .., where the bits of all are there.
pub(crate) fn row(
    s: &[u8],
    t: Trace,
    all: usize,
    kinds: &[u64],
    widths: &[usize],
    fields: &mut [u64],
) -> Trace
    requires { Bound s.now t × Whole kinds.now widths.now all }
    ensures { Traced (numbers widths.now) (row kinds.now) s.now t fields.old result fields.new }
{
    if !t.good {
        return t;
    }
    let at = t.at;
    let met = t.met;
    if s.len() * 8 < at + all {
        return stop(t);
    }
    side_by_side(s, at, met, kinds, widths, &mut *fields);
    Trace {
        at: at + all,
        met: met + widths.len(),
        good: true,
    }
}

// { 0 | 1 < number : bit (width) > }
pub(crate) fn flagged(
    s: &[u8],
    t: Trace,
    flag: u64,
    kind: u64,
    width: usize,
    fields: &mut [u64],
) -> Trace
    requires { Bound s.now t × (1 ≤ width) × (width ≤ 64) }
    ensures { Traced (flagged (number width)) (led flag (one kind)) s.now t fields.old result fields.new }
{
    let f = note(s, t, flag, 1, &mut *fields);
    let u = f.trace;
    if f.value == 0 {
        return u;
    }
    let n = note(s, u, kind, width, &mut *fields);
    n.trace
}

// { null | L | H
pub(crate) fn lead(s: &[u8], t: Trace, kind: u64, fields: &mut [u64]) -> Noted
    requires { Bound s.now t }
    ensures { Leading kind s.now t fields.old result fields.new }
{
    let at = t.at;
    if at == s.len() * 8 {
        return Noted { trace: t, value: 0 };
    }
    let b = note(s, t, kind, 1, &mut *fields);
    let u = b.trace;
    if !u.good {
        return Noted { trace: u, value: 0 };
    }
    if b.value == csn1::padding_bit(at) {
        return Noted { trace: u, value: 0 };
    }
    Noted { trace: u, value: 1 }
}
