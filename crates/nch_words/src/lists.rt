// The lists of Releases 6 and 7, taken from words into an array of zeros. An entry asks once whether it leaves a bit for the 0 that closes the list.
ghost use Rattle.std.specs.Prelude.{◌≡◌, ◌+◌, ◌≤◌, length};
ghost use Rattle.csn1.specs.Format.{num, list};
ghost use Rattle.csn1.specs.Grammar.{format};
ghost use Rattle.arrays.specs.Inner.{Zeros};
ghost use Rattle.nch.specs.Octets.{reduced, random};
ghost use Rattle.nch.specs.Places.{reduceds_at, randoms_at, marks_at, all_length};
ghost use Rattle.nch.specs.Inner.{reduceds_run, randoms_run, marks_run};
ghost use Rattle.words.specs.Inner.{Twenty};
ghost use Rattle.nch_words.specs.Inner.{no_list_taken, RandomTaken, ListTaken};

use crate::parts::{part, put_flagged};
use nch::places;
use words::array;

// What was taken of a list; not done where a test was not met, a place is behind the end or there are more than have places.
#[derive(Drop)]
pub(crate) struct TakenList {
    pub(crate) done: bool,
    pub(crate) count: usize,
    pub(crate) at: usize,
}

pub(crate) fn no_list() -> TakenList
    ensures { result ≡ no_list_taken }
{
    TakenList {
        done: false,
        count: 0,
        at: 0,
    }
}

// The reduced references from a bit on.
pub(crate) fn take_reduceds(
    s: &[u8],
    w: &[u64; array::LENGTH],
    from: usize,
    numbers: &mut [u64],
) -> TakenList
    requires { Twenty w.now s.now × ((all_length ≤ length numbers.old) × Zeros numbers.old reduceds_at) }
    ensures { ListTaken reduceds_run reduceds_at ((list (format reduced)).read s.now from) result numbers.old numbers.new }
{
    if 159 < from {
        return no_list();
    }
    let mut count: usize = 0;
    let mut at = from;
    'entries: loop {
        let x = array::at(w, at);
        if part(x, 0, 1) == 0 {
            numbers[places::REDUCEDS] = count as u64;
            break 'entries TakenList {
                done: true,
                count,
                at: at + 1,
            };
        }
        if 130 < at {
            break 'entries no_list();
        }
        if places::MOST_REDUCEDS <= count {
            break 'entries no_list();
        }
        let reference = part(x, 1, 27);
        if 99999999 < reference {
            break 'entries no_list();
        }
        let place = places::FIRST_REDUCED + places::REDUCED_LENGTH * count;
        numbers[place] = reference;
        numbers[place + 1] = part(x, 28, 1);
        count += 1;
        at += 29;
    }
}

// A random entry of which x is the 64 bits from the bit that leads it on; how far it reaches.
fn put_random(x: u64, numbers: &mut [u64], place: usize) -> usize
    requires { (place + 3 ≤ length numbers.old) × Zeros numbers.old place }
    ensures { RandomTaken x place result numbers.old numbers.new }
{
    numbers[place] = part(x, 1, 1);
    put_flagged(x, 2, 36, &mut *numbers, place + 1)
}

// The random entries from a bit on.
pub(crate) fn take_randoms(
    s: &[u8],
    w: &[u64; array::LENGTH],
    from: usize,
    numbers: &mut [u64],
) -> TakenList
    requires { Twenty w.now s.now × ((all_length ≤ length numbers.old) × Zeros numbers.old randoms_at) }
    ensures { ListTaken randoms_run randoms_at ((list (format random)).read s.now from) result numbers.old numbers.new }
{
    if 159 < from {
        return no_list();
    }
    let mut count: usize = 0;
    let mut at = from;
    'entries: loop {
        let x = array::at(w, at);
        if part(x, 0, 1) == 0 {
            numbers[places::RANDOMS] = count as u64;
            break 'entries TakenList {
                done: true,
                count,
                at: at + 1,
            };
        }
        if places::MOST_RANDOMS <= count {
            break 'entries no_list();
        }
        let next = at
            + put_random(
                x,
                &mut *numbers,
                places::FIRST_RANDOM + places::RANDOM_LENGTH * count,
            );
        if 159 < next {
            break 'entries no_list();
        }
        count += 1;
        at = next;
    }
}

// The emergency marks from a bit on.
pub(crate) fn take_marks(
    s: &[u8],
    w: &[u64; array::LENGTH],
    from: usize,
    numbers: &mut [u64],
) -> TakenList
    requires { Twenty w.now s.now × ((all_length ≤ length numbers.old) × Zeros numbers.old marks_at) }
    ensures { ListTaken marks_run marks_at ((list (num 1)).read s.now from) result numbers.old numbers.new }
{
    if 159 < from {
        return no_list();
    }
    let mut count: usize = 0;
    let mut at = from;
    'entries: loop {
        let x = array::at(w, at);
        if part(x, 0, 1) == 0 {
            numbers[places::MARKS] = count as u64;
            break 'entries TakenList {
                done: true,
                count,
                at: at + 1,
            };
        }
        if 157 < at {
            break 'entries no_list();
        }
        if places::MOST_MARKS <= count {
            break 'entries no_list();
        }
        numbers[places::FIRST_MARK + count] = part(x, 1, 1);
        count += 1;
        at += 2;
    }
}
