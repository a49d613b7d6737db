// NOTIFICATION/FACCH as numbers.
ghost use Rattle.std.specs.Prelude.{◌≡◌, true, ◌∷◌, ◌≤◌, length};
ghost use Rattle.csn1.specs.Told.{padded};
ghost use Rattle.arrays.specs.Runs.{stored};
ghost use Rattle.facch.specs.Told.{read_of};
ghost use Rattle.numbers.specs.FacchPlaces.{used_at, all_length};
ghost use Rattle.numbers.specs.FacchNumbers.{page_numbers, release6_numbers, release7_numbers, numbers_of, read_numbers, page_from, release6_from, release7_from, record_from, fields_hold, write_code, after_write};

use crate::{limits, places};
use arrays::{fields, fill};
use csn1::Refusal;
use facch::{Notification, Page, Release6, Release7};

fn page_numbers(p: Page) -> [u64; places::PAGE_LENGTH]
    ensures { result ≡ page_numbers p }
{
    [
        p.identityLength as u64,
        p.identityFirst as u64,
        p.identityRest,
        p.channelFirst as u64,
        p.hasPriority as u64,
        p.priority as u64,
    ]
}

fn release6_numbers(r: Release6) -> [u64; places::RELEASE6_LENGTH]
    ensures { result ≡ release6_numbers r }
{
    [
        r.hasRelease as u64,
        r.hasCount as u64,
        r.cellcount as u64,
        r.b22 as u64,
        r.hasRandom as u64,
        r.rand,
    ]
}

fn release7_numbers(r: Release7) -> [u64; places::RELEASE7_LENGTH]
    ensures { result ≡ release7_numbers r }
{
    [
        r.hasRelease as u64,
        r.uplink as u64,
        r.emergency as u64,
        r.hasCause as u64,
        r.cause as u64,
    ]
}

// The bits used and behind them the record's numbers, in the first places.
fn put_all(m: Notification, used: usize, numbers: &mut [u64])
    requires { all_length ≤ length numbers.old }
    ensures { numbers.new ≡ stored numbers.old used_at (used ∷ numbers_of m) }
{
    let head = [used as u64, m.paging as u64];
    fill::run(&head, &mut *numbers, places::USED);
    let c = m.call;
    let call = nch::numbers::numbers_of(c);
    fill::run(&call, &mut *numbers, places::CALL);
    let p = m.page;
    let page = page_numbers(p);
    fill::run(&page, &mut *numbers, places::IDENTITY_LENGTH);
    let r = m.release6;
    let six = release6_numbers(r);
    fill::run(&six, &mut *numbers, places::RELEASE6);
    let s = m.release7;
    let seven = release7_numbers(s);
    fill::run(&seven, &mut *numbers, places::RELEASE7);
}

// Reads any octets, into as many places as there are. Where all numbers have places, they are put there and nowhere before: a copy waits for what was just written.
pub fn read(octets: &[u8], numbers: &mut [u64]) -> Refusal
    ensures { (result ≡ (read_of octets.now).refusal)
        × (numbers.new ≡ padded 0 (length numbers.old) (read_numbers octets.now)) }
{
    let r = facch::read(octets);
    if r.refusal.number != 0 {
        fill::clear(&mut *numbers, places::USED);
        return r.refusal;
    }
    let m = r.record;
    if places::LENGTH <= numbers.len() {
        put_all(m, r.used, &mut *numbers);
        fill::clear(&mut *numbers, places::LENGTH);
        return r.refusal;
    }
    let mut all = [0u64; places::LENGTH];
    put_all(m, r.used, &mut all);
    fill::store(&all, &mut *numbers);
    r.refusal
}

// Numbers that their fields can hold, taken out of the array.
fn page_from(numbers: &[u64]) -> Page
    requires { fields_hold numbers.now ≡ true }
    ensures { result ≡ page_from numbers.now }
{
    Page {
        identityLength: fields::octet_at(numbers, places::IDENTITY_LENGTH),
        identityFirst: fields::octet_at(numbers, places::IDENTITY_FIRST),
        identityRest: fields::number_at(numbers, places::IDENTITY_REST),
        channelFirst: fields::octet_at(numbers, places::CHANNEL_FIRST),
        hasPriority: fields::flag_at(numbers, places::PRIORITIZED),
        priority: fields::octet_at(numbers, places::PRIORITY),
    }
}

fn release6_from(numbers: &[u64]) -> Release6
    requires { fields_hold numbers.now ≡ true }
    ensures { result ≡ release6_from numbers.now }
{
    Release6 {
        hasRelease: fields::flag_at(numbers, places::RELEASE6),
        hasCount: fields::flag_at(numbers, places::COUNTED),
        cellcount: fields::octet_at(numbers, places::CELLCOUNT),
        b22: fields::flag_at(numbers, places::B22),
        hasRandom: fields::flag_at(numbers, places::RANDOM),
        rand: fields::number_at(numbers, places::RAND),
    }
}

fn release7_from(numbers: &[u64]) -> Release7
    ensures { result ≡ release7_from numbers.now }
{
    Release7 {
        hasRelease: fields::flag_at(numbers, places::RELEASE7),
        uplink: fields::flag_at(numbers, places::UPLINK),
        emergency: fields::flag_at(numbers, places::EMERGENCY),
        hasCause: fields::flag_at(numbers, places::CAUSED),
        cause: fields::flag_at(numbers, places::CAUSE),
    }
}

// The record whose numbers these are.
fn record_from(numbers: &[u64]) -> Notification
    requires { (length numbers.now ≡ all_length) × (fields_hold numbers.now ≡ true) }
    ensures { result ≡ record_from numbers.now }
{
    Notification {
        paging: fields::flag_at(numbers, places::PAGING),
        call: nch::numbers::call_at(numbers, places::CALL as u8),
        page: page_from(numbers),
        release6: release6_from(numbers),
        release7: release7_from(numbers),
    }
}

// Writes the record that the numbers are into 2 to 23 octets and says 0, or says the number of the refusal and leaves the octets as they are. The first number, the
// bits that a reader used, is not looked at.
pub fn write(numbers: &[u64], octets: &mut [u8]) -> u8
    ensures { (result ≡ write_code numbers.now (length octets.old))
        × (octets.new ≡ after_write numbers.now octets.old) }
{
    if numbers.len() != places::LENGTH {
        return 13;
    }
    if !arrays::limits::holds(&numbers[places::PAGING..], &limits::FACCH_MOST) {
        return 12;
    }
    let m = record_from(numbers);
    facch_write::write(m, &mut *octets).refusal
}
