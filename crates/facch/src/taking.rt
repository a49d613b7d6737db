// A message of a call, taken from words: no field is asked for, and the end is asked for once.
ghost use Rattle.std.specs.Prelude.{◌≡◌, false, ◌+◌, ◌≤◌, ◌<◌};
ghost use Rattle.words.specs.Inner.{Part};
ghost use Rattle.facch.specs.Told.{read_of};
ghost use Rattle.facch.specs.Inner.{CountTaken, FlagTaken, HighTaken, SixTaken, SevenTaken, Quickly};

use crate::{Release6, Release7, additions};
use bits::Got;
use call::Call;

// The field of width bits that begins at bit `from` of 64 bits.
fn part(x: u64, from: usize, width: usize) -> u64
    requires { (0 < width) × (from + width ≤ 64) }
    ensures { Part x from width result }
{
    (x << from) >> (64 - width)
}

// The counts behind their flag, and how far they reach.
#[derive(Drop)]
struct TakenCount {
    hasCount: bool,
    cellcount: u8,
    b22: bool,
    next: usize,
}

// {0 | 1 <CELL_GLOBAL_COUNT: bit (2)> <B22_COUNT: bit>}, behind the H
fn take_count(x: u64) -> TakenCount
    ensures { CountTaken x result }
{
    if part(x, 1, 1) == 0 {
        return TakenCount {
            hasCount: false,
            cellcount: 0,
            b22: false,
            next: 2,
        };
    }
    TakenCount {
        hasCount: true,
        cellcount: (x << 2 >> 62) as u8,
        b22: part(x, 4, 1) == 1,
        next: 5,
    }
}

// A number led by a flag, and how far it reaches.
#[derive(Drop)]
struct TakenFlag {
    hasValue: bool,
    value: u64,
    next: usize,
}

// {0 | 1 < number : bit (width) >}
fn take_flagged(x: u64, from: usize, width: usize) -> TakenFlag
    requires { (0 < width) × (from + width < 64) }
    ensures { FlagTaken x from width result }
{
    if part(x, from, 1) == 0 {
        return TakenFlag {
            hasValue: false,
            value: 0,
            next: from + 1,
        };
    }
    TakenFlag {
        hasValue: true,
        value: part(x, from + 1, width),
        next: from + 1 + width,
    }
}

// Whether the L/H-coded bit at bit `from` of the 64 bits at a place is H.
fn is_high(x: u64, from: usize, at: usize) -> bool
    requires { (from < 64) × (at ≤ 4096) }
    ensures { HighTaken x from at result }
{
    part(x, from, 1) != csn1::padding_bit(at + from)
}

#[derive(Drop)]
struct TakenSix {
    release: Release6,
    next: usize,
}

// {null | L | H <Release 6>} at a place of a message of `end` bits, of which x is the 64 bits from there on
fn take_release6(x: u64, at: usize, end: usize) -> TakenSix
    requires { at ≤ 4096 }
    ensures { SixTaken x at end result }
{
    if at == end {
        return TakenSix {
            release: additions::no_release6(),
            next: 0,
        };
    }
    if !is_high(x, 0, at) {
        return TakenSix {
            release: additions::no_release6(),
            next: 1,
        };
    }
    let c = take_count(x);
    let v = take_flagged(x, c.next, 36);
    TakenSix {
        release: Release6 {
            hasRelease: true,
            hasCount: c.hasCount,
            cellcount: c.cellcount,
            b22: c.b22,
            hasRandom: v.hasValue,
            rand: v.value,
        },
        next: v.next,
    }
}

#[derive(Drop)]
struct TakenSeven {
    release: Release7,
    next: usize,
}

// {null | L | H <Release 7>} from bit `from` of the 64 bits on
fn take_release7(x: u64, from: usize, at: usize, end: usize) -> TakenSeven
    requires { (at ≤ 4096) × (from ≤ 42) }
    ensures { SevenTaken x from at end result }
{
    if at + from == end {
        return TakenSeven {
            release: additions::no_release7(),
            next: from,
        };
    }
    if !is_high(x, from, at) {
        return TakenSeven {
            release: additions::no_release7(),
            next: from + 1,
        };
    }
    let uplink = is_high(x, from + 1, at);
    let emergency = is_high(x, from + 2, at);
    let p = take_flagged(x, from + 3, 1);
    TakenSeven {
        release: Release7 {
            hasRelease: true,
            uplink,
            emergency,
            hasCause: p.hasValue,
            cause: p.value == 1,
        },
        next: p.next,
    }
}

// What was taken of a message of a call, and the bits used; not done where it is another, a test was not met or bits ran out.
#[derive(Drop)]
pub(crate) struct Quick {
    pub(crate) done: bool,
    pub(crate) used: usize,
    pub(crate) call: Call,
    pub(crate) release6: Release6,
    pub(crate) release7: Release7,
}

fn not_quick() -> Quick
    ensures { result.done ≡ false }
{
    Quick {
        done: false,
        used: 0,
        call: call::no_call(),
        release6: additions::no_release6(),
        release7: additions::no_release7(),
    }
}

// Both releases are taken from the 64 bits behind the call: they end within 47.
pub(crate) fn message(octets: &[u8]) -> Quick
    ensures { Quickly result (read_of octets.now) }
{
    if 23 < octets.len() {
        return not_quick();
    }
    let Got::Bits(paging) = bits::reader::field(octets, 8, 1) else {
        return not_quick();
    };
    if paging != 0 {
        return not_quick();
    }
    let c = words::take(octets, 9);
    if !c.done {
        return not_quick();
    }
    let end = octets.len() * 8;
    if end < c.at {
        return not_quick();
    }
    let six = take_release6(c.next, c.at, end);
    let seven = take_release7(c.next, six.next, c.at, end);
    let used = c.at + seven.next;
    if end < used {
        return not_quick();
    }
    let call = c.call;
    let release6 = six.release;
    let release7 = seven.release;
    Quick {
        done: true,
        used,
        call,
        release6,
        release7,
    }
}
