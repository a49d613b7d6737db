// The lists of NT/N Rest Octets, each read into an array of zeros: how many entries there are, and behind that the first of them. Those past their places are
// read and counted.
ghost use Rattle.std.specs.Prelude.{◌≡◌, ℕ, ◌≤◌, length};
ghost use Rattle.csn1.specs.Format.{bad, num, list};
ghost use Rattle.csn1.specs.Grammar.{format};
ghost use Rattle.arrays.specs.Inner.{Zeros, Left};
ghost use Rattle.call.specs.Call.{group_call};
ghost use Rattle.nch.specs.Octets.{reduced, random};
ghost use Rattle.nch.specs.Places.{calls_at, reduceds_at, randoms_at, marks_at, all_length};
ghost use Rattle.nch.specs.Inner.{calls_passed, list_passed, calls_run, reduceds_run, randoms_run, marks_run};

use crate::numbers::numbers_of;
use crate::places;
use arrays::fill;
use bits::Got;
use csn1::Refusal;

// What the reader of the calls passes on: why not, how many are ciphered and how many described, and the place behind them.
#[derive(Drop)]
pub struct CallsPassed {
    pub refusal: Refusal,
    pub ciphered: usize,
    pub described: usize,
    pub at: usize,
}

// What the reader of another list passes on.
#[derive(Drop)]
pub struct ListPassed {
    pub refusal: Refusal,
    pub count: usize,
    pub at: usize,
}

fn no_calls(refusal: Refusal) -> CallsPassed
    ensures { result ≡ calls_passed (bad refusal) }
{
    CallsPassed {
        refusal,
        ciphered: 0,
        described: 0,
        at: 0,
    }
}

pub(crate) fn no_list(refusal: Refusal) -> ListPassed
    ensures { result ≡ list_passed {A = ℕ} (bad refusal) }
{
    ListPassed {
        refusal,
        count: 0,
        at: 0,
    }
}

// The calls from a bit on.
pub(crate) fn list_calls(s: &[u8], from: usize, numbers: &mut [u64]) -> CallsPassed
    requires { (length s.now ≤ 4096) × ((all_length ≤ length numbers.old) × Zeros numbers.old calls_at) }
    ensures { Left calls_passed calls_run calls_at ((list group_call).read s.now from) result numbers.old numbers.new }
{
    let mut count: usize = 0;
    let mut ciphered: usize = 0;
    let mut described: usize = 0;
    let mut at = from;
    'entries: loop {
        let Got::Bits(flag) = bits::reader::field(s, at, 1) else {
            break 'entries no_calls(csn1::ran_out(at));
        };
        if flag == 0 {
            numbers[places::CALLS] = count as u64;
            break 'entries CallsPassed {
                refusal: csn1::no_refusal(),
                ciphered,
                described,
                at: at + 1,
            };
        }
        let c = call::read(s, at + 1);
        if c.refusal.number != 0 {
            break 'entries no_calls(c.refusal);
        }
        if count < places::MOST_CALLS {
            let one = numbers_of(c.call);
            fill::run(
                &one,
                &mut *numbers,
                places::FIRST_CALL + places::CALL_LENGTH * count,
            );
        }
        count += 1;
        ciphered += (1 <= c.call.cipher) as usize;
        described += c.call.hasDescription as usize;
        at = c.at;
    }
}

// The widths of a reduced reference's fields: the reference, the service flag.
const WIDTHS: [usize; 2] = [27, 1];

// The reduced references from a bit on.
pub(crate) fn list_reduceds(s: &[u8], from: usize, numbers: &mut [u64]) -> ListPassed
    requires { (length s.now ≤ 4096) × ((all_length ≤ length numbers.old) × Zeros numbers.old reduceds_at) }
    ensures { Left list_passed reduceds_run reduceds_at ((list (format reduced)).read s.now from) result numbers.old numbers.new }
{
    let mut count: usize = 0;
    let mut at = from;
    'entries: loop {
        let Got::Bits(flag) = bits::reader::field(s, at, 1) else {
            break 'entries no_list(csn1::ran_out(at));
        };
        if flag == 0 {
            numbers[places::REDUCEDS] = count as u64;
            break 'entries ListPassed {
                refusal: csn1::no_refusal(),
                count,
                at: at + 1,
            };
        }
        let mut parts = [0u64; 2];
        let mut k: usize = 0;
        let mut next = at + 1;
        'fields: while k < 2 {
            let width = WIDTHS[k];
            let Got::Bits(v) = bits::reader::field(s, next, width) else {
                break 'entries no_list(csn1::ran_out(at + 1));
            };
            parts[k] = v;
            next += width;
            k += 1;
        }
        if 99999999 < parts[0] {
            break 'entries no_list(csn1::ground(4));
        }
        if count < places::MOST_REDUCEDS {
            let place = places::FIRST_REDUCED + places::REDUCED_LENGTH * count;
            numbers[place] = parts[0];
            numbers[place + 1] = parts[1];
        }
        count += 1;
        at = next;
    }
}

// The random entries from a bit on.
pub(crate) fn list_randoms(s: &[u8], from: usize, numbers: &mut [u64]) -> ListPassed
    requires { (length s.now ≤ 4096) × ((all_length ≤ length numbers.old) × Zeros numbers.old randoms_at) }
    ensures { Left list_passed randoms_run randoms_at ((list (format random)).read s.now from) result numbers.old numbers.new }
{
    let mut count: usize = 0;
    let mut at = from;
    'entries: loop {
        let Got::Bits(flag) = bits::reader::field(s, at, 1) else {
            break 'entries no_list(csn1::ran_out(at));
        };
        if flag == 0 {
            numbers[places::RANDOMS] = count as u64;
            break 'entries ListPassed {
                refusal: csn1::no_refusal(),
                count,
                at: at + 1,
            };
        }
        let Got::Bits(segment) = bits::reader::field(s, at + 1, 1) else {
            break 'entries no_list(csn1::ran_out(at + 1));
        };
        let rand = csn1::read_flagged(s, at + 2, 36);
        if rand.refusal.number != 0 {
            break 'entries no_list(rand.refusal);
        }
        if count < places::MOST_RANDOMS {
            let place = places::FIRST_RANDOM + places::RANDOM_LENGTH * count;
            numbers[place] = segment;
            numbers[place + 1] = rand.hasValue as u64;
            numbers[place + 2] = rand.value;
        }
        count += 1;
        at = rand.at;
    }
}

// The emergency marks from a bit on.
pub(crate) fn list_marks(s: &[u8], from: usize, numbers: &mut [u64]) -> ListPassed
    requires { (length s.now ≤ 4096) × ((all_length ≤ length numbers.old) × Zeros numbers.old marks_at) }
    ensures { Left list_passed marks_run marks_at ((list (num 1)).read s.now from) result numbers.old numbers.new }
{
    let mut count: usize = 0;
    let mut at = from;
    'entries: loop {
        let Got::Bits(flag) = bits::reader::field(s, at, 1) else {
            break 'entries no_list(csn1::ran_out(at));
        };
        if flag == 0 {
            numbers[places::MARKS] = count as u64;
            break 'entries ListPassed {
                refusal: csn1::no_refusal(),
                count,
                at: at + 1,
            };
        }
        let Got::Bits(mark) = bits::reader::field(s, at + 1, 1) else {
            break 'entries no_list(csn1::ran_out(at + 1));
        };
        if count < places::MOST_MARKS {
            numbers[places::FIRST_MARK + count] = mark;
        }
        count += 1;
        at += 2;
    }
}
