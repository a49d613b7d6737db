// The parts that Releases 6 and 7 added, each read into an array of zeros.
ghost use Rattle.std.specs.Prelude.{◌≡◌, ℕ, ◌≤◌, length};
ghost use Rattle.std.proofs.Math.Option.{some};
ghost use Rattle.csn1.specs.Format.{ok, bad, ◌then◌, renumbered, num, opt, release, ◌⨟◌};
ghost use Rattle.csn1.specs.Grammar.{format};
ghost use Rattle.arrays.specs.Inner.{Zeros, Left};
ghost use Rattle.nch.specs.Octets.{amr, release6, release7};
ghost use Rattle.nch.specs.Places.{release6_at, release7_at, amr_at, sms_at, all_length};
ghost use Rattle.nch.specs.Inner.{part_passed, list_passed, release6_passed, release7_passed, amr_run, sms_run, release6_run, release7_run};

use crate::lists::{ListPassed, list_marks, list_randoms, list_reduceds, no_list};
use crate::places;
use bits::Got;
use csn1::Refusal;

// What the reader of Release 6 passes on.
#[derive(Drop)]
pub struct Release6Passed {
    pub refusal: Refusal,
    pub reduced: usize,
    pub randoms: usize,
    pub at: usize,
}

// What the reader of a part passes on of which nothing is counted.
#[derive(Drop)]
pub struct PartPassed {
    pub refusal: Refusal,
    pub at: usize,
}

fn no_release6(refusal: Refusal) -> Release6Passed
    ensures { result ≡ release6_passed (bad refusal) }
{
    Release6Passed {
        refusal,
        reduced: 0,
        randoms: 0,
        at: 0,
    }
}

// Bits that ran out behind Release 6's H are 14.
fn clipped6(refusal: Refusal) -> Release6Passed
    ensures { result ≡ release6_passed (bad (renumbered 14 refusal)) }
{
    no_release6(csn1::inside(14, refusal))
}

// Behind Release 7's H they are 15.
fn clipped7(refusal: Refusal) -> ListPassed
    ensures { result ≡ list_passed {A = ℕ} (bad (renumbered 15 refusal)) }
{
    no_list(csn1::inside(15, refusal))
}

pub(crate) fn no_part(refusal: Refusal) -> PartPassed
    ensures { result ≡ part_passed {A = ℕ} (bad refusal) }
{
    PartPassed { refusal, at: 0 }
}

// {0 | 1 <CELL_GLOBAL_COUNT: bit (2)>} <List of Reduced GCR> <List of VSTK_RAND information>, behind the H.
fn fill_parts6(s: &[u8], at: usize, numbers: &mut [u64]) -> Release6Passed
    requires { (length s.now ≤ 4096) × ((all_length ≤ length numbers.old) × Zeros numbers.old release6_at) }
    ensures { Left release6_passed release6_run release6_at ((format release6).read s.now at then λ v q. ok (some v) q) result numbers.old numbers.new }
{
    let c = csn1::read_flagged(s, at, 2);
    if c.refusal.number != 0 {
        return clipped6(c.refusal);
    }
    numbers[places::RELEASE6] = 1;
    numbers[places::COUNTED] = c.hasValue as u64;
    numbers[places::CELLCOUNT] = c.value;
    let d = list_reduceds(s, c.at, &mut *numbers);
    if d.refusal.number != 0 {
        return clipped6(d.refusal);
    }
    let e = list_randoms(s, d.at, &mut *numbers);
    if e.refusal.number != 0 {
        return clipped6(e.refusal);
    }
    Release6Passed {
        refusal: csn1::no_refusal(),
        reduced: d.count,
        randoms: e.count,
        at: e.at,
    }
}

// { null | L | H <Release 6> }
pub(crate) fn fill_release6(s: &[u8], at: usize, numbers: &mut [u64]) -> Release6Passed
    requires { (length s.now ≤ 4096) × ((all_length ≤ length numbers.old) × Zeros numbers.old release6_at) }
    ensures { Left release6_passed release6_run release6_at ((release (format release6)).read s.now at) result numbers.old numbers.new }
{
    let l = csn1::read_lead(s, at);
    if l.refusal.number != 0 {
        return no_release6(l.refusal);
    }
    if !l.high {
        return Release6Passed {
            refusal: csn1::no_refusal(),
            reduced: 0,
            randoms: 0,
            at: l.at,
        };
    }
    fill_parts6(s, l.at, &mut *numbers)
}

// {0 | 1 {0|1 <FR AMR Config: bit(4)>} {0|1 <HR AMR Config: bit(4)>}}
fn fill_amr(s: &[u8], at: usize, numbers: &mut [u64]) -> PartPassed
    requires { (length s.now ≤ 4096) × ((all_length ≤ length numbers.old) × Zeros numbers.old amr_at) }
    ensures { Left part_passed amr_run amr_at ((opt (format amr)).read s.now at) result numbers.old numbers.new }
{
    let Got::Bits(flag) = bits::reader::field(s, at, 1) else {
        return no_part(csn1::ran_out(at));
    };
    if flag == 0 {
        return PartPassed {
            refusal: csn1::no_refusal(),
            at: at + 1,
        };
    }
    let full = csn1::read_flagged(s, at + 1, 4);
    if full.refusal.number != 0 {
        return no_part(full.refusal);
    }
    let half = csn1::read_flagged(s, full.at, 4);
    if half.refusal.number != 0 {
        return no_part(half.refusal);
    }
    numbers[places::AMR] = 1;
    numbers[places::FULLRATED] = full.hasValue as u64;
    numbers[places::FULLRATE] = full.value;
    numbers[places::HALFRATED] = half.hasValue as u64;
    numbers[places::HALFRATE] = half.value;
    PartPassed {
        refusal: csn1::no_refusal(),
        at: half.at,
    }
}

// {0 | 1 <SMS Data Confidentiality Ind: bit(1)> <SMS Guaranteed Privacy Ind: bit(1)>}
fn fill_sms(s: &[u8], at: usize, numbers: &mut [u64]) -> PartPassed
    requires { (length s.now ≤ 4096) × ((all_length ≤ length numbers.old) × Zeros numbers.old sms_at) }
    ensures { Left part_passed sms_run sms_at ((opt (num 1 ⨟ num 1)).read s.now at) result numbers.old numbers.new }
{
    let Got::Bits(flag) = bits::reader::field(s, at, 1) else {
        return no_part(csn1::ran_out(at));
    };
    if flag == 0 {
        return PartPassed {
            refusal: csn1::no_refusal(),
            at: at + 1,
        };
    }
    let Got::Bits(confidential) = bits::reader::field(s, at + 1, 1) else {
        return no_part(csn1::ran_out(at + 1));
    };
    let Got::Bits(private) = bits::reader::field(s, at + 2, 1) else {
        return no_part(csn1::ran_out(at + 2));
    };
    numbers[places::SMS] = 1;
    numbers[places::CONFIDENTIAL] = confidential;
    numbers[places::PRIVATE] = private;
    PartPassed {
        refusal: csn1::no_refusal(),
        at: at + 3,
    }
}

// <List of Emergency information> {0 | 1 <Priority Uplink access: bit(1)>} and the AMR and SMS parts, behind the H.
fn fill_parts7(s: &[u8], at: usize, numbers: &mut [u64]) -> ListPassed
    requires { (length s.now ≤ 4096) × ((all_length ≤ length numbers.old) × Zeros numbers.old release7_at) }
    ensures { Left release7_passed release7_run release7_at ((format release7).read s.now at then λ v q. ok (some v) q) result numbers.old numbers.new }
{
    numbers[places::RELEASE7] = 1;
    let m = list_marks(s, at, &mut *numbers);
    if m.refusal.number != 0 {
        return clipped7(m.refusal);
    }
    let u = csn1::read_flagged(s, m.at, 1);
    if u.refusal.number != 0 {
        return clipped7(u.refusal);
    }
    numbers[places::UPLINKED] = u.hasValue as u64;
    numbers[places::UPLINK] = u.value;
    let a = fill_amr(s, u.at, &mut *numbers);
    if a.refusal.number != 0 {
        return clipped7(a.refusal);
    }
    let t = fill_sms(s, a.at, &mut *numbers);
    if t.refusal.number != 0 {
        return clipped7(t.refusal);
    }
    ListPassed {
        refusal: csn1::no_refusal(),
        count: m.count,
        at: t.at,
    }
}

// { null | L | H <Release 7> }
pub(crate) fn fill_release7(s: &[u8], at: usize, numbers: &mut [u64]) -> ListPassed
    requires { (length s.now ≤ 4096) × ((all_length ≤ length numbers.old) × Zeros numbers.old release7_at) }
    ensures { Left release7_passed release7_run release7_at ((release (format release7)).read s.now at) result numbers.old numbers.new }
{
    let l = csn1::read_lead(s, at);
    if l.refusal.number != 0 {
        return no_list(l.refusal);
    }
    if !l.high {
        return ListPassed {
            refusal: csn1::no_refusal(),
            count: 0,
            at: l.at,
        };
    }
    fill_parts7(s, l.at, &mut *numbers)
}
