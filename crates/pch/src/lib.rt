// An entry of the PCH: the paging head decodes P1 Rest Octets (44.018, 3.3.3.1) and lends what they say of one call, as an array of numbers.
#![tactic(auto)]

ghost use Rattle.std.specs.Prelude.{◌≡◌, true, get_or};
ghost use Rattle.bits.specs.Field.{pick};
ghost use Rattle.pch.specs.Entry.{is_set, hops, lists_short, allocates, description_in, full_call, reduced_call, call_in, entry_in, length_right, hops_right, is_flag, flags_right, reference_right, numbers_right, no_entry, read_of};
ghost use Rattle.pch.specs.Inner.{hopping_flags_right, sound, Fits, refused_as};

use arrays::fields;
use call::{Call, Description};
use csn1::Refusal;

// What stands where in the array.
pub const KEY: usize = 0;

pub const CIPHERED: usize = 1;

pub const FULL: usize = 2;

pub const REFERENCE: usize = 3;

pub const DESCRIBED: usize = 4;

pub const CHANNEL: usize = 5;

pub const HOPPING: usize = 6;

pub const SHORTLIST: usize = 7;

pub const ALLOCATION: usize = 8;

pub const FREQUENCIES: usize = 9;

pub const GIVEN: usize = 10;

pub const RAND: usize = 11;

pub const COUNTED: usize = 12;

pub const CELLCOUNT: usize = 13;

pub const LENGTH: usize = 14;

// The highest key: reference 99,999,999 times 2, plus the service flag.
pub const LAST_KEY: u64 = 199999999;

// What an entry says. What is absent is zero.
#[derive(Drop)]
pub struct Entry {
    // Whether it is marked as ciphered.
    pub ciphered: bool,
    // A full reference of 36 bits; else the key's reference and service flag alone.
    pub full: bool,
    pub call: Call,
    pub hasRandom: bool,
    // VSTK_RAND, 36 bits.
    pub rand: u64,
    pub hasCount: bool,
    // CELL_GLOBAL_COUNT.
    pub cellcount: u8,
}

// What reading gives: the entry, or why not, and then it is zero.
#[derive(Drop)]
pub struct Reading {
    pub refusal: Refusal,
    pub record: Entry,
}

// Whether a flag is set; what stands behind one that is not is not looked at.
fn is_set(numbers: &[u64], at: usize) -> bool
    ensures { result ≡ is_set numbers.now at }
{
    fields::number_at(numbers, at) != 0
}

fn hops(numbers: &[u64]) -> bool
    ensures { result ≡ hops numbers.now }
{
    if is_set(numbers, DESCRIBED) {
        return is_set(numbers, HOPPING);
    }
    false
}

// It hops over a Mobile Allocation.
fn allocates(numbers: &[u64]) -> bool
    ensures { result ≡ allocates numbers.now }
{
    if hops(numbers) {
        return !is_set(numbers, SHORTLIST);
    }
    false
}

// Refusal 3 is not due.
fn length_right(numbers: &[u64]) -> bool
    ensures { result ≡ length_right numbers.now }
{
    if allocates(numbers) {
        let n = fields::number_at(numbers, ALLOCATION);
        if n < 1 {
            return false;
        }
        return n <= 8;
    }
    true
}

// Refusal 5 is not due.
fn hops_right(numbers: &[u64]) -> bool
    ensures { result ≡ hops_right numbers.now }
{
    if is_set(numbers, DESCRIBED) {
        let bit = fields::number_at(numbers, CHANNEL) / 4096 % 2;
        if is_set(numbers, HOPPING) {
            return bit == 1;
        }
        return bit == 0;
    }
    true
}

// The number behind a flag, 0 where it is not set.
fn behind(numbers: &[u64], flag: usize, at: usize) -> u64
    ensures { result ≡ pick (is_set numbers.now flag) (get_or numbers.now at 0) 0 }
{
    if is_set(numbers, flag) {
        return fields::number_at(numbers, at);
    }
    0
}

// Refusal 12 is not due, in the functions up to `sound`. A flag that is looked at is 0 or 1.
fn is_flag(numbers: &[u64], at: usize) -> bool
    ensures { result ≡ is_flag numbers.now at }
{
    fields::number_at(numbers, at) <= 1
}

fn hopping_flags_right(numbers: &[u64]) -> bool
    ensures { result ≡ hopping_flags_right numbers.now }
{
    if is_set(numbers, DESCRIBED) {
        if !is_flag(numbers, HOPPING) {
            return false;
        }
        if is_set(numbers, HOPPING) {
            return is_flag(numbers, SHORTLIST);
        }
    }
    true
}

fn flags_right(numbers: &[u64]) -> bool
    ensures { result ≡ flags_right numbers.now }
{
    if !is_flag(numbers, CIPHERED) {
        return false;
    }
    if !is_flag(numbers, FULL) {
        return false;
    }
    if !is_flag(numbers, DESCRIBED) {
        return false;
    }
    if !is_flag(numbers, GIVEN) {
        return false;
    }
    if !is_flag(numbers, COUNTED) {
        return false;
    }
    hopping_flags_right(numbers)
}

// A full reference is of the key and of the ciphered mark, and a description has one.
fn reference_right(numbers: &[u64]) -> bool
    ensures { result ≡ reference_right numbers.now }
{
    if is_set(numbers, FULL) {
        let reference = fields::number_at(numbers, REFERENCE);
        if reference / 256 != fields::number_at(numbers, KEY) {
            return false;
        }
        let marked = 1 <= reference % 16;
        if is_set(numbers, CIPHERED) {
            return marked;
        }
        return !marked;
    }
    !is_set(numbers, DESCRIBED)
}

// VSTK_RAND has 36 bits, CELL_GLOBAL_COUNT two.
fn numbers_right(numbers: &[u64]) -> bool
    ensures { result ≡ numbers_right numbers.now }
{
    if 68719476735 < behind(numbers, GIVEN, RAND) {
        return false;
    }
    behind(numbers, COUNTED, CELLCOUNT) < 4
}

// All but the call's own fields; of these the channel, so that there is a call to be asked about.
fn sound(numbers: &[u64]) -> bool
    ensures { result ≡ sound numbers.now }
{
    if !flags_right(numbers) {
        return false;
    }
    if !reference_right(numbers) {
        return false;
    }
    if !numbers_right(numbers) {
        return false;
    }
    behind(numbers, DESCRIBED, CHANNEL) < 16777216
}

// The Mobile Allocation's length, 0 where there is none.
fn length_in(numbers: &[u64]) -> u64
    ensures { result ≡ (description_in numbers.now).length }
{
    if allocates(numbers) {
        return fields::number_at(numbers, ALLOCATION);
    }
    0
}

fn lists_short(numbers: &[u64]) -> bool
    ensures { result ≡ lists_short numbers.now }
{
    if hops(numbers) {
        return is_set(numbers, SHORTLIST);
    }
    false
}

fn frequencies_in(numbers: &[u64]) -> u64
    ensures { result ≡ (description_in numbers.now).frequencies }
{
    if hops(numbers) {
        return fields::number_at(numbers, FREQUENCIES);
    }
    0
}

fn description_in(numbers: &[u64]) -> Description
    requires { Fits numbers.now }
    ensures { result ≡ description_in numbers.now }
{
    Description {
        channel: behind(numbers, DESCRIBED, CHANNEL) as u32,
        hopping: hops(numbers),
        shortlist: lists_short(numbers),
        length: length_in(numbers) as u8,
        frequencies: frequencies_in(numbers),
    }
}

fn full_call(numbers: &[u64]) -> Call
    requires { Fits numbers.now × (is_set numbers.now 2 ≡ true) }
    ensures { result ≡ full_call numbers.now }
{
    let head = fields::number_at(numbers, REFERENCE);
    Call {
        reference: (head / 512) as u32,
        vgcs: head / 256 % 2 == 1,
        acknowledged: head / 128 % 2 == 1,
        priority: (head / 16 % 8) as u8,
        cipher: (head % 16) as u8,
        hasDescription: is_set(numbers, DESCRIBED),
        description: description_in(numbers),
    }
}

// Without a full reference there are the key's reference and service flag alone.
fn reduced_call(numbers: &[u64]) -> Call
    requires { Fits numbers.now }
    ensures { result ≡ reduced_call numbers.now }
{
    let key = fields::number_at(numbers, KEY);
    Call {
        reference: (key / 2) as u32,
        vgcs: key % 2 == 1,
        acknowledged: false,
        priority: 0,
        cipher: 0,
        hasDescription: is_set(numbers, DESCRIBED),
        description: description_in(numbers),
    }
}

fn call_in(numbers: &[u64]) -> Call
    requires { Fits numbers.now }
    ensures { result ≡ call_in numbers.now }
{
    if is_set(numbers, FULL) {
        return full_call(numbers);
    }
    reduced_call(numbers)
}

fn entry_in(numbers: &[u64]) -> Entry
    requires { Fits numbers.now }
    ensures { result ≡ entry_in numbers.now }
{
    Entry {
        ciphered: is_set(numbers, CIPHERED),
        full: is_set(numbers, FULL),
        call: call_in(numbers),
        hasRandom: is_set(numbers, GIVEN),
        rand: behind(numbers, GIVEN, RAND),
        hasCount: is_set(numbers, COUNTED),
        cellcount: behind(numbers, COUNTED, CELLCOUNT) as u8,
    }
}

// No entry, as a refused one is told.
pub fn no_entry() -> Entry
    ensures { result ≡ no_entry }
{
    Entry {
        ciphered: false,
        full: false,
        call: call::no_call(),
        hasRandom: false,
        rand: 0,
        hasCount: false,
        cellcount: 0,
    }
}

fn refused(number: u8) -> Reading
    ensures { result ≡ refused_as number }
{
    Reading {
        refusal: csn1::ground(number),
        record: no_entry(),
    }
}

// An entry of any array: 13 where it has another length, then 4, 3, 5, 12.
pub fn read(numbers: &[u64]) -> Reading
    ensures { result ≡ read_of numbers.now }
{
    if numbers.len() != LENGTH {
        return refused(13);
    }
    if LAST_KEY < fields::number_at(numbers, KEY) {
        return refused(4);
    }
    if !length_right(numbers) {
        return refused(3);
    }
    if !hops_right(numbers) {
        return refused(5);
    }
    if !sound(numbers) {
        return refused(12);
    }
    let record = entry_in(numbers);
    if !call::writer::in_range(record.call) {
        return refused(12);
    }
    Reading {
        refusal: csn1::no_refusal(),
        record,
    }
}
