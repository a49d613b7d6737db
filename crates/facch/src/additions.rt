// What Releases 6 and 7 added to NOTIFICATION/FACCH.
ghost use Rattle.std.specs.Prelude.{◌≡◌, ◌≤◌, length};
ghost use Rattle.std.proofs.Math.Option.{some};
ghost use Rattle.csn1.specs.Format.{ok, bad, ◌then◌, renumbered, num, opt, release, ◌⨟◌};
ghost use Rattle.csn1.specs.Grammar.{format};
ghost use Rattle.csn1.specs.Told.{read_at_of};
ghost use Rattle.facch.specs.Message.{release6, release7};
ghost use Rattle.facch.specs.Told.{no_release6, no_release7};
ghost use Rattle.facch.specs.Parts.{release6_at_of, release7_at_of};
ghost use Rattle.facch.specs.Inner.{count_at_of};

use crate::{Release6, Release7};
use bits::Got;
use csn1::Refusal;

#[derive(Drop)]
pub struct CountAt {
    pub refusal: Refusal,
    pub hasCount: bool,
    pub cellcount: u8,
    pub b22: bool,
    pub at: usize,
}

#[derive(Drop)]
pub struct Release6At {
    pub refusal: Refusal,
    pub release: Release6,
    pub at: usize,
}

#[derive(Drop)]
pub struct Release7At {
    pub refusal: Refusal,
    pub release: Release7,
    pub at: usize,
}

// An absent Release 6.
pub fn no_release6() -> Release6
    ensures { result ≡ no_release6 }
{
    Release6 {
        hasRelease: false,
        hasCount: false,
        cellcount: 0,
        b22: false,
        hasRandom: false,
        rand: 0,
    }
}

// An absent Release 7.
pub fn no_release7() -> Release7
    ensures { result ≡ no_release7 }
{
    Release7 {
        hasRelease: false,
        uplink: false,
        emergency: false,
        hasCause: false,
        cause: false,
    }
}

fn refused_count(refusal: Refusal) -> CountAt
    ensures { result ≡ count_at_of (bad refusal) }
{
    CountAt {
        refusal,
        hasCount: false,
        cellcount: 0,
        b22: false,
        at: 0,
    }
}

// {0 | 1 <CELL_GLOBAL_COUNT: bit (2)> <B22_COUNT: bit>}
fn read_count(s: &[u8], at: usize) -> CountAt
    requires { length s.now ≤ 4096 }
    ensures { result ≡ count_at_of ((opt (num 2 ⨟ num 1)).read s.now at) }
{
    let Got::Bits(flag) = bits::reader::field(s, at, 1) else {
        return refused_count(csn1::ran_out(at));
    };
    if flag == 0 {
        return CountAt {
            refusal: csn1::no_refusal(),
            hasCount: false,
            cellcount: 0,
            b22: false,
            at: at + 1,
        };
    }
    let Got::Bits(cellcount) = bits::reader::field(s, at + 1, 2) else {
        return refused_count(csn1::ran_out(at + 1));
    };
    let Got::Bits(b22) = bits::reader::field(s, at + 3, 1) else {
        return refused_count(csn1::ran_out(at + 3));
    };
    CountAt {
        refusal: csn1::no_refusal(),
        hasCount: true,
        cellcount: cellcount as u8,
        b22: b22 == 1,
        at: at + 4,
    }
}

fn refused_release6(refusal: Refusal) -> Release6At
    ensures { result ≡ release6_at_of (bad refusal) }
{
    Release6At {
        refusal,
        release: no_release6(),
        at: 0,
    }
}

// Bits that ran out behind Release 6's H are 14.
fn clipped6(refusal: Refusal) -> Release6At
    ensures { result ≡ release6_at_of (bad (renumbered 14 refusal)) }
{
    refused_release6(csn1::inside(14, refusal))
}

// The parts behind Release 6's H.
fn read_parts6(s: &[u8], at: usize) -> Release6At
    requires { length s.now ≤ 4096 }
    ensures { result ≡ release6_at_of ((format release6).read s.now at then λ v q. ok (some v) q) }
{
    let c = read_count(s, at);
    if c.refusal.number != 0 {
        return clipped6(c.refusal);
    }
    let v = csn1::read_flagged(s, c.at, 36);
    if v.refusal.number != 0 {
        return clipped6(v.refusal);
    }
    Release6At {
        refusal: csn1::no_refusal(),
        release: Release6 {
            hasRelease: true,
            hasCount: c.hasCount,
            cellcount: c.cellcount,
            b22: c.b22,
            hasRandom: v.hasValue,
            rand: v.value,
        },
        at: v.at,
    }
}

// {null | L | H <Release 6>}
pub fn read_release6(s: &[u8], at: usize) -> Release6At
    ensures { result ≡ release6_at_of (read_at_of (release (format release6)) s.now at) }
{
    if csn1::LONGEST < s.len() {
        return refused_release6(csn1::ran_out(at));
    }
    let l = csn1::read_lead(s, at);
    if l.refusal.number != 0 {
        return refused_release6(l.refusal);
    }
    if !l.high {
        return Release6At {
            refusal: csn1::no_refusal(),
            release: no_release6(),
            at: l.at,
        };
    }
    read_parts6(s, l.at)
}

fn refused_release7(refusal: Refusal) -> Release7At
    ensures { result ≡ release7_at_of (bad refusal) }
{
    Release7At {
        refusal,
        release: no_release7(),
        at: 0,
    }
}

// Bits that ran out behind Release 7's H are 15.
fn clipped7(refusal: Refusal) -> Release7At
    ensures { result ≡ release7_at_of (bad (renumbered 15 refusal)) }
{
    refused_release7(csn1::inside(15, refusal))
}

// The parts behind Release 7's H. The first two bits are L/H-coded (003); Paging Cause is a plain bit.
fn read_parts7(s: &[u8], at: usize) -> Release7At
    requires { length s.now ≤ 4096 }
    ensures { result ≡ release7_at_of ((format release7).read s.now at then λ v q. ok (some v) q) }
{
    let u = csn1::read_coded(s, at);
    if u.refusal.number != 0 {
        return clipped7(u.refusal);
    }
    let e = csn1::read_coded(s, u.at);
    if e.refusal.number != 0 {
        return clipped7(e.refusal);
    }
    let p = csn1::read_flagged(s, e.at, 1);
    if p.refusal.number != 0 {
        return clipped7(p.refusal);
    }
    Release7At {
        refusal: csn1::no_refusal(),
        release: Release7 {
            hasRelease: true,
            uplink: u.high,
            emergency: e.high,
            hasCause: p.hasValue,
            cause: p.value == 1,
        },
        at: p.at,
    }
}

// {null | L | H <Release 7>}
pub fn read_release7(s: &[u8], at: usize) -> Release7At
    ensures { result ≡ release7_at_of (read_at_of (release (format release7)) s.now at) }
{
    if csn1::LONGEST < s.len() {
        return refused_release7(csn1::ran_out(at));
    }
    let l = csn1::read_lead(s, at);
    if l.refusal.number != 0 {
        return refused_release7(l.refusal);
    }
    if !l.high {
        return Release7At {
            refusal: csn1::no_refusal(),
            release: no_release7(),
            at: l.at,
        };
    }
    read_parts7(s, l.at)
}
