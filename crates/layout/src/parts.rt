// The answer to the last accepted event: one number of it, the record of an entry, and who is paged.
ghost use Rattle.std.specs.Prelude.{◌≡◌, [], ◌∷◌, ◌+◌, ◌<◌, ◌≤◌, length, get_or, leb, ltb};
ghost use Rattle.bits.specs.Field.{both, pick};
ghost use Rattle.receiver.specs.Step.{most_entries, no_told};
ghost use Rattle.receiver.specs.Model.{no_record, no_paged};
ghost use Rattle.layout.specs.Octets.{octet_at};
ghost use Rattle.layout.specs.Layout.{state_length, record_size, told_length, is_state, record_at, told_at, carries, told_no, paged_at, last_of};
ghost use Rattle.layout.specs.Parts.{record_numbers, told_numbers, paged_numbers, part_of};

use crate::octets::{flag_at, u32_at, u64_at};
use crate::records::record_at;
use crate::{ANSWER, LENGTH, PAGED, TOLD_LENGTH, TOLDS};
use facch::Page;
use receiver::{MOST_ENTRIES, Paged, Record, meeting, messages};

// A number of the record at a place: four wide ones, twenty flags, six small ones.
fn record_part(b: &[u8], at: usize, part: usize) -> u64
    requires { at + record_size ≤ length b.now }
    ensures { result ≡ get_or (record_numbers (record_at b.now at)) part 0 }
{
    if part < 2 {
        return u64::from(u32_at(b, at + 4 * part));
    }
    if part < 4 {
        return u64_at(b, at + 8 * (part - 1));
    }
    if part < 24 {
        return u64::from(flag_at(b, at + 20 + part));
    }
    if part < 30 {
        return u64::from(b[at + 20 + part]);
    }
    0
}

// Key, number told and the thirty numbers of a record come before what stands beside the number told.
const BESIDE: usize = 2 + 30;

// What stands beside the number told: whether it can be followed, and with which count.
fn beside(b: &[u8], at: usize, part: usize) -> u64
    requires { at + 11 ≤ length b.now }
    ensures { result ≡ get_or (octet_at b.now (at + 9) ∷ octet_at b.now (at + 10) ∷ []) part 0 }
{
    if part < 2 {
        return u64::from(b[at + 9 + part]);
    }
    0
}

// A number of what stands from a place on, read as an entry that carries a record: its key, the number told, its record, whether it can be followed, and with which count.
fn number_from(b: &[u8], at: usize, part: usize) -> u64
    requires { at + told_length ≤ length b.now }
    ensures { result ≡ get_or (told_numbers (told_at b.now at)) part 0 }
{
    if part == 0 {
        return u64_at(b, at);
    }
    if part == 1 {
        return u64::from(b[at + 8]);
    }
    if BESIDE <= part {
        return beside(b, at, part - BESIDE);
    }
    record_part(b, at + 16, part - 2)
}

// The same in any octets: 0 where they end before it.
pub fn told_part(b: &[u8], at: usize, part: usize) -> u64
    ensures { result ≡ pick (leb (at + told_length) (length b.now)) (get_or (told_numbers (told_at b.now at)) part 0) 0 }
{
    if b.len() < TOLD_LENGTH {
        return 0;
    }
    if b.len() - TOLD_LENGTH < at {
        return 0;
    }
    number_from(b, at, part)
}

// Whether a number told is one of those that carry a record.
pub fn carries(number: u64) -> bool
    ensures { result ≡ carries number }
{
    1 <= number && number <= 3
}

// Whether a part of an entry is one of its record's.
fn is_of_record(part: usize) -> bool
    ensures { result ≡ both (leb 2 part) (ltb part 32) }
{
    2 <= part && part < BESIDE
}

// A number of an entry: where no record is carried, none is read.
fn entry_part(b: &[u8], entry: usize, part: usize) -> u64
    requires { (length b.now ≡ state_length) × (entry < most_entries) }
    ensures { result ≡ get_or (told_numbers (told_no b.now entry)) part 0 }
{
    let at = TOLDS + TOLD_LENGTH * entry;
    if is_of_record(part) && !carries(u64::from(b[at + 8])) {
        return 0;
    }
    number_from(b, at, part)
}

fn page_at(b: &[u8]) -> Page
    requires { length b.now ≡ state_length }
    ensures { result ≡ (paged_at b.now).page }
{
    Page {
        identityLength: b[PAGED + 1],
        identityFirst: b[PAGED + 2],
        identityRest: u64_at(b, PAGED + 8),
        channelFirst: b[PAGED + 3],
        hasPriority: flag_at(b, PAGED + 4),
        priority: b[PAGED + 5],
    }
}

// Who is paged; nobody, where there is no state.
pub fn paged_of(b: &[u8]) -> Paged
    ensures { result ≡ pick (is_state b.now) (last_of b.now).paged no_paged }
{
    if b.len() != LENGTH {
        return messages::no_paged();
    }
    Paged {
        there: flag_at(b, PAGED),
        page: page_at(b),
        hasCause: flag_at(b, PAGED + 6),
        cause: flag_at(b, PAGED + 7),
    }
}

// How many numbers say who is paged.
pub const PAGED_NUMBERS: usize = 9;

// Who is paged, as numbers in the order of the header's parts.
pub fn paged_numbers(p: Paged) -> [u64; PAGED_NUMBERS]
    ensures { result ≡ paged_numbers p }
{
    [
        u64::from(p.there),
        u64::from(p.page.identityLength),
        u64::from(p.page.identityFirst),
        p.page.identityRest,
        u64::from(p.page.channelFirst),
        u64::from(p.page.hasPriority),
        u64::from(p.page.priority),
        u64::from(p.hasCause),
        u64::from(p.cause),
    ]
}

// One of them.
fn paged_part(b: &[u8], part: usize) -> u64
    requires { length b.now ≡ state_length }
    ensures { result ≡ get_or (paged_numbers (last_of b.now).paged) part 0 }
{
    if PAGED_NUMBERS <= part {
        return 0;
    }
    let all = paged_numbers(paged_of(b));
    all[part]
}

// Who is paged, among the parts: behind the three numbers of the answer and all of an entry.
const PAGED_PART: usize = 3 + BESIDE + 2;

// What is not there is 0.
pub fn part_of(b: &[u8], entry: usize, part: usize) -> u64
    ensures { result ≡ pick (is_state b.now) (part_of (last_of b.now) entry part) 0 }
{
    if b.len() != LENGTH {
        return 0;
    }
    if part < 3 {
        return u64::from(u32_at(b, ANSWER + 4 * part));
    }
    if PAGED_PART <= part {
        return paged_part(b, part - PAGED_PART);
    }
    if MOST_ENTRIES <= entry {
        return 0;
    }
    if u32_at(b, ANSWER + 8) as usize <= entry {
        return 0;
    }
    entry_part(b, entry, part - 3)
}

// The number told, among the parts.
const NUMBER: usize = 4;

// The record of an entry, its octets read once; the record that stands for none where there is none. An entry that is not there is told 0.
pub fn record_of(b: &[u8], entry: usize) -> Record
    ensures { result ≡ pick (is_state b.now) (get_or (last_of b.now).entries entry no_told).«record» no_record }
{
    if carries(part_of(b, entry, NUMBER)) {
        record_at(b, TOLDS + 16 + TOLD_LENGTH * entry)
    } else {
        meeting::no_record()
    }
}
