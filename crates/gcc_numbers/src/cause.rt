// Cause as numbers: what it means, which a reader leaves and no writer looks at; how many septets, the septets, how many diagnostics, the diagnostics.
ghost use Rattle.std.specs.Prelude.{◌≡◌, ◌∷◌, ◌++◌, ◌+◌, ◌≤◌, length, get_or};
ghost use Rattle.std.proofs.lemmas.List.Edits.{sets};
ghost use Rattle.bits.specs.Field.{pick};
ghost use Rattle.csn1.specs.Told.{padded};
ghost use Rattle.gcc.specs.Cause.{meaning_numbers, read_of, write_to};
ghost use Rattle.gcc_numbers.specs.ElementNumbers.{cause_numbers, kind_at, count_at, cause_length, cause_fits, cause_from, wrong_length, cause_code};
ghost use Rattle.gcc_numbers.specs.Inner.{OctetsFrom};

use crate::{are_octets, narrow, widen};
use arrays::fill;
use gcc::cause;
use gcc::cause::{Cause, Meaning};

// Where the numbers stand: the two of the meaning, then those of the cause; and how many there are.
const KIND: usize = 0;

const VALUE: usize = KIND + 1;

const COUNT: usize = VALUE + 1;

const SEPTETS: usize = COUNT + 1;

const SIZE: usize = SEPTETS + 255;

const DIAGNOSTICS: usize = SIZE + 1;

const LENGTH: usize = DIAGNOSTICS + 255;

// The first number of a meaning.
fn kind_of(meaning: Meaning) -> u64
    ensures { result ≡ get_or (meaning_numbers meaning) 0 0 }
{
    match meaning {
        Meaning::Nothing => 0,
        Meaning::Specific(_) => 1,
        Meaning::Unspecific => 2,
    }
}

// The second number of a meaning.
fn value_of(meaning: Meaning) -> u64
    ensures { result ≡ get_or (meaning_numbers meaning) 1 0 }
{
    match meaning {
        Meaning::Nothing => 0,
        Meaning::Specific(n) => n as u64,
        Meaning::Unspecific => 0,
    }
}

// What a cause means.
fn put_meaning(numbers: &mut [u64], meaning: Meaning)
    ensures { numbers.new ≡ sets numbers.old kind_at (meaning_numbers meaning) }
{
    fill::put(&mut *numbers, KIND, kind_of(meaning));
    fill::put(&mut *numbers, VALUE, value_of(meaning));
}

// How many octets a part has, and the places of its octets.
fn put_part(numbers: &mut [u64], at: usize, count: u8, octets: &[u8])
    requires { at + length octets.now ≤ 1023 }
    ensures { numbers.new ≡ sets numbers.old at (count ∷ octets.now) }
{
    fill::put(&mut *numbers, at, count as u64);
    widen(octets, &mut *numbers, at + 1);
}

// Both parts of a cause.
fn put_cause(numbers: &mut [u64], cause: Cause)
    ensures { numbers.new ≡ sets numbers.old count_at ((cause.count ∷ cause.septets) ++ (cause.size ∷ cause.diagnostics)) }
{
    let septets = cause.septets;
    put_part(&mut *numbers, COUNT, cause.count, &septets);
    let diagnostics = cause.diagnostics;
    put_part(&mut *numbers, SIZE, cause.size, &diagnostics);
}

pub fn read(octets: &[u8], numbers: &mut [u64]) -> u8
    ensures { (result ≡ (read_of octets.now).refusal) × (numbers.new ≡ padded 0 (length numbers.old) (cause_numbers (read_of octets.now))) }
{
    let m = cause::read(octets);
    let all = m.cause;
    let meaning = m.meaning;
    fill::clear(&mut *numbers, 0);
    put_meaning(&mut *numbers, meaning);
    put_cause(&mut *numbers, all);
    m.refusal
}

// Whether there is no septet, or there are over 255 octets.
fn is_wrong_length(count: u64, size: u64) -> bool
    ensures { result ≡ wrong_length count size }
{
    if count == 0 {
        return true;
    }
    if 255 < count {
        return true;
    }
    if 255 < size {
        return true;
    }
    if 255 < count + size {
        return true;
    }
    false
}

fn cause_from(numbers: &[u64]) -> Cause
    requires { (length numbers.now ≡ cause_length) × OctetsFrom count_at numbers.now }
    ensures { result ≡ cause_from numbers.now }
{
    let mut septets = [0u8; 255];
    narrow(&numbers[SEPTETS..SIZE], &mut septets);
    let mut diagnostics = [0u8; 255];
    narrow(&numbers[DIAGNOSTICS..LENGTH], &mut diagnostics);
    Cause {
        count: numbers[COUNT] as u8,
        septets,
        size: numbers[SIZE] as u8,
        diagnostics,
    }
}

pub fn write(numbers: &[u64], octets: &mut [u8]) -> u8
    ensures { (result ≡ cause_code numbers.now (length octets.old))
        × (octets.new ≡ pick (cause_fits numbers.now) (write_to (cause_from numbers.now) octets.old) octets.old) }
{
    if numbers.len() != LENGTH {
        return 13;
    }
    if !are_octets(&numbers[COUNT..]) {
        if is_wrong_length(numbers[COUNT], numbers[SIZE]) {
            return 13;
        }
        return 12;
    }
    cause::write(cause_from(numbers), octets)
}
