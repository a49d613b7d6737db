// Parts of a message as the one number that their bits make.
ghost use Rattle.std.specs.Prelude.{◌≡◌, true, ◌+◌, ◌≤◌, ◌<◌, ◌^◌};
ghost use Rattle.csn1.specs.Format.{num, opt, release, ◌⨟◌};
ghost use Rattle.csn1.specs.Grammar.{format};
ghost use Rattle.csn1.specs.Told.{there};
ghost use Rattle.facch.specs.Message.{release6, release7};
ghost use Rattle.facch.specs.Back.{release6_value, release7_value};
ghost use Rattle.facch_write.specs.Write.{release6_in_range, release7_in_range};
ghost use Rattle.facch_write.specs.Inner.{coded_strip, flagged_strip, absent_strip, beside_strip, Says};

use facch::{Page, Release6, Release7};

// The lowest bits of a number.
#[derive(Drop)]
pub(crate) struct Strip {
    pub(crate) width: usize,
    pub(crate) value: u64,
}

// An L/H bit at a place.
fn coded(at: usize, high: bool) -> Strip
    ensures { result ≡ coded_strip at high }
{
    let padding = csn1::padding_bit(at);
    if high {
        return Strip {
            width: 1,
            value: 1 - padding,
        };
    }
    Strip {
        width: 1,
        value: padding,
    }
}

// {0 | 1 <number : bit (width)>}
fn flagged(here: bool, width: usize, v: u64) -> Strip
    requires { (width ≤ 36) × (v < 2 ^ width) }
    ensures { result ≡ flagged_strip here width v }
{
    if here {
        return Strip {
            width: 1 + width,
            value: (1u64 << width) + v,
        };
    }
    Strip { width: 1, value: 0 }
}

// One behind the other.
fn beside(a: Strip, b: Strip) -> Strip
    requires { (a.width + b.width ≤ 42) × ((a.value < 2 ^ a.width) × (b.value < 2 ^ b.width)) }
    ensures { result ≡ beside_strip a b }
{
    Strip {
        width: a.width + b.width,
        value: (a.value << b.width) + b.value,
    }
}

// A release that is absent: nothing where the bits end, else L.
fn absent(at: usize, end: usize) -> Strip
    ensures { result ≡ absent_strip at end }
{
    if at == end {
        return Strip { width: 0, value: 0 };
    }
    coded(at, false)
}

// {null | L | H <Release 6>}
pub(crate) fn release6(r: Release6, at: usize, end: usize) -> Strip
    requires { release6_in_range r ≡ true }
    ensures { Says result ((release (format release6)).bits end at (there r.hasRelease (release6_value r))) }
{
    if !r.hasRelease {
        return absent(at, end);
    }
    let count = flagged(r.hasCount, 3, r.cellcount as u64 * 2 + r.b22 as u64);
    let rand = flagged(r.hasRandom, 36, r.rand);
    beside(coded(at, true), beside(count, rand))
}

// {null | L | H <Release 7>}
pub(crate) fn release7(r: Release7, at: usize, end: usize) -> Strip
    requires { (at ≤ 4096) × (release7_in_range r ≡ true) }
    ensures { Says result ((release (format release7)).bits end at (there r.hasRelease (release7_value r))) }
{
    if !r.hasRelease {
        return absent(at, end);
    }
    let uplink = coded(at + 1, r.uplink);
    let emergency = coded(at + 2, r.emergency);
    let cause = flagged(r.hasCause, 1, r.cause as u64);
    beside(coded(at, true), beside(uplink, beside(emergency, cause)))
}

// <channel first: bit(2)> {0|1 <eMLPP priority : bit(3)>}
pub(crate) fn channel(p: Page) -> Strip
    requires { (p.channelFirst < 4) × (p.priority < 8) }
    ensures { Says result ((num 2 ⨟ opt (num 3)).bits 0 0 (p.channelFirst, there p.hasPriority p.priority)) }
{
    let first = Strip {
        width: 2,
        value: p.channelFirst as u64,
    };
    beside(first, flagged(p.hasPriority, 3, p.priority as u64))
}
