// The parts that Releases 6 and 7 added, taken from words into an array of zeros.
ghost use Rattle.std.specs.Prelude.{◌≡◌, ◌≤◌, ◌<◌, length};
ghost use Rattle.std.proofs.Math.Option.{some};
ghost use Rattle.csn1.specs.Format.{ok, ◌then◌, release};
ghost use Rattle.csn1.specs.Grammar.{format};
ghost use Rattle.arrays.specs.Inner.{Zeros};
ghost use Rattle.nch.specs.Octets.{release6, release7};
ghost use Rattle.nch.specs.Places.{release6_at, release7_at, amr_at, sms_at, all_length};
ghost use Rattle.words.specs.Inner.{Twenty};
ghost use Rattle.nch_words.specs.Inner.{no_six_taken, LeadTaken, AmrTaken, SmsTaken, SixTaken, SevenTaken};

use crate::lists::{TakenList, no_list, take_marks, take_randoms, take_reduceds};
use crate::parts::{part, put_flagged};
use nch::places;
use words::array;

// What was taken of Release 6.
#[derive(Drop)]
pub(crate) struct TakenSix {
    pub(crate) done: bool,
    pub(crate) reduced: usize,
    pub(crate) randoms: usize,
    pub(crate) at: usize,
}

fn no_six() -> TakenSix
    ensures { result ≡ no_six_taken }
{
    TakenSix {
        done: false,
        reduced: 0,
        randoms: 0,
        at: 0,
    }
}

// Whether what leads a later release's part is H, and the place behind it.
#[derive(Drop)]
struct TakenLead {
    high: bool,
    at: usize,
}

// { null | L | H }
fn take_lead(s: &[u8], w: &[u64; array::LENGTH], at: usize) -> TakenLead
    requires { Twenty w.now s.now × (at ≤ 160) }
    ensures { LeadTaken s.now at result }
{
    if at == 160 {
        return TakenLead { high: false, at };
    }
    let x = array::at(w, at);
    TakenLead {
        high: part(x, 0, 1) != csn1::padding_bit(at),
        at: at + 1,
    }
}

// {0 | 1 <CELL_GLOBAL_COUNT: bit (2)>} <List of Reduced GCR> <List of VSTK_RAND information>, behind the H. The flag and what closes each list are three bits at least.
fn take_parts6(s: &[u8], w: &[u64; array::LENGTH], at: usize, numbers: &mut [u64]) -> TakenSix
    requires { Twenty w.now s.now × ((all_length ≤ length numbers.old) × Zeros numbers.old release6_at) }
    ensures { SixTaken ((format release6).read s.now at then λ v q. ok (some v) q) result numbers.old numbers.new }
{
    if 157 < at {
        return no_six();
    }
    let x = array::at(w, at);
    numbers[places::RELEASE6] = 1;
    let c = put_flagged(x, 0, 2, &mut *numbers, places::COUNTED);
    let d = take_reduceds(s, w, at + c, &mut *numbers);
    if !d.done {
        return no_six();
    }
    let e = take_randoms(s, w, d.at, &mut *numbers);
    if !e.done {
        return no_six();
    }
    TakenSix {
        done: true,
        reduced: d.count,
        randoms: e.count,
        at: e.at,
    }
}

// { null | L | H <Release 6> }
pub(crate) fn take_release6(
    s: &[u8],
    w: &[u64; array::LENGTH],
    at: usize,
    numbers: &mut [u64],
) -> TakenSix
    requires { (Twenty w.now s.now × (at ≤ 160)) × ((all_length ≤ length numbers.old) × Zeros numbers.old release6_at) }
    ensures { SixTaken ((release (format release6)).read s.now at) result numbers.old numbers.new }
{
    let l = take_lead(s, w, at);
    if !l.high {
        return TakenSix {
            done: true,
            reduced: 0,
            randoms: 0,
            at: l.at,
        };
    }
    take_parts6(s, w, l.at, &mut *numbers)
}

// {0 | 1 {0|1 <FR AMR Config: bit(4)>} {0|1 <HR AMR Config: bit(4)>}}, from bit `from` of 64 bits on; how far it reaches
fn put_amr(x: u64, from: usize, numbers: &mut [u64]) -> usize
    requires { (from < 8) × ((all_length ≤ length numbers.old) × Zeros numbers.old amr_at) }
    ensures { AmrTaken x from result numbers.old numbers.new }
{
    if part(x, from, 1) == 0 {
        return from + 1;
    }
    numbers[places::AMR] = 1;
    let half = put_flagged(x, from + 1, 4, &mut *numbers, places::FULLRATED);
    put_flagged(x, half, 4, &mut *numbers, places::HALFRATED)
}

// {0 | 1 <SMS Data Confidentiality Ind: bit(1)> <SMS Guaranteed Privacy Ind: bit(1)>}, likewise
fn put_sms(x: u64, from: usize, numbers: &mut [u64]) -> usize
    requires { (from < 32) × ((all_length ≤ length numbers.old) × Zeros numbers.old sms_at) }
    ensures { SmsTaken x from result numbers.old numbers.new }
{
    if part(x, from, 1) == 0 {
        return from + 1;
    }
    numbers[places::SMS] = 1;
    numbers[places::CONFIDENTIAL] = part(x, from + 1, 1);
    numbers[places::PRIVATE] = part(x, from + 2, 1);
    from + 3
}

// <List of Emergency information> {0 | 1 <Priority Uplink access: bit(1)>} and the AMR and SMS parts, behind the H. What is behind the marks ends within 16 bits.
fn take_parts7(s: &[u8], w: &[u64; array::LENGTH], at: usize, numbers: &mut [u64]) -> TakenList
    requires { Twenty w.now s.now × ((all_length ≤ length numbers.old) × Zeros numbers.old release7_at) }
    ensures { SevenTaken ((format release7).read s.now at then λ v q. ok (some v) q) result numbers.old numbers.new }
{
    numbers[places::RELEASE7] = 1;
    let m = take_marks(s, w, at, &mut *numbers);
    if !m.done {
        return no_list();
    }
    let x = array::at(w, m.at);
    let u = put_flagged(x, 0, 1, &mut *numbers, places::UPLINKED);
    let a = put_amr(x, u, &mut *numbers);
    let t = put_sms(x, a, &mut *numbers);
    let next = m.at + t;
    if 160 < next {
        return no_list();
    }
    TakenList {
        done: true,
        count: m.count,
        at: next,
    }
}

// { null | L | H <Release 7> }
pub(crate) fn take_release7(
    s: &[u8],
    w: &[u64; array::LENGTH],
    at: usize,
    numbers: &mut [u64],
) -> TakenList
    requires { (Twenty w.now s.now × (at ≤ 160)) × ((all_length ≤ length numbers.old) × Zeros numbers.old release7_at) }
    ensures { SevenTaken ((release (format release7)).read s.now at) result numbers.old numbers.new }
{
    let l = take_lead(s, w, at);
    if !l.high {
        return TakenList {
            done: true,
            count: 0,
            at: l.at,
        };
    }
    take_parts7(s, w, l.at, &mut *numbers)
}
