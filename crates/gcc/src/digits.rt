// Compressed otdi (44.068, 9.4.8): originator-to-dispatcher information, five octets that stand for twelve digits.
ghost use Rattle.std.specs.Prelude.{◌≡◌, ◌/◌, ◌%◌, ◌^◌, ◌≤◌, ◌<◌, length};
ghost use Rattle.gcc.specs.Inner.{four_of};
ghost use Rattle.gcc.specs.Numeral.{spell};
ghost use Rattle.gcc.specs.Digits.{refused, read_of, write_number, write_to};

use crate::{all_within, put, worth_of};

// The digits are IA5 characters, 30 to 39 hex.
#[derive(Clone, Copy)]
pub struct Reading {
    pub refusal: u8,
    pub digits: [u8; 12],
}

// Four digits, the highest first.
#[derive(Clone, Copy)]
struct Four {
    thousands: u8,
    hundreds: u8,
    tens: u8,
    ones: u8,
}

// A number of twelve digits, four by four.
#[derive(Clone, Copy)]
struct Parts {
    first: u32,
    middle: u32,
    last: u32,
}

// 10 to the power of 4: what a one is worth that stands before four digits.
const TEN_TO_4: u32 = 10000;

// 5 to the power of 8. What a one is worth that stands before eight digits, 10 to the power of 8, is 256 times this.
const FIVE_TO_8: u32 = 390625;

// Parts a number of twelve digits. What stands above its last octet fits 32 bits: divided by 5 to the power of 8 it gives the first four digits, and what is left of it
// goes before the octet and has the other eight. No division is of more than 32 bits, since a processor may have no wider one.
fn parted(n: u64) -> Parts
    requires { n ≤ 999999999999 }
    ensures { (result.first ≡ n / 10 ^ 8) × (result.middle ≡ n % 10 ^ 8 / 10 ^ 4) × (result.last ≡ n % 10 ^ 8 % 10 ^ 4) }
{
    let above = n >> 8;
    let upper = above as u32;
    let rest = upper % FIVE_TO_8 * 256 + (n - above * 256) as u32;
    Parts {
        first: upper / FIVE_TO_8,
        middle: rest / TEN_TO_4,
        last: rest % TEN_TO_4,
    }
}

// The digits of a number that has four. Each is found from the number and not from the digit behind it, so that a processor works on all of them at once.
fn spelled_four(n: u32) -> Four
    requires { n < 10 ^ 4 }
    ensures { four_of result ≡ spell 10 48 4 n }
{
    let one = n / 1000;
    let two = n / 100;
    let three = n / 10;
    Four {
        thousands: (48 + one) as u8,
        hundreds: (48 + two - 10 * one) as u8,
        tens: (48 + three - 10 * two) as u8,
        ones: (48 + n % 10) as u8,
    }
}

// The twelve digits of a number.
fn spelled(n: u64) -> [u8; 12]
    requires { n ≤ 999999999999 }
    ensures { result ≡ spell 10 48 12 n }
{
    let p = parted(n);
    let a = spelled_four(p.first);
    let b = spelled_four(p.middle);
    let c = spelled_four(p.last);
    [
        a.thousands,
        a.hundreds,
        a.tens,
        a.ones,
        b.thousands,
        b.hundreds,
        b.tens,
        b.ones,
        c.thousands,
        c.hundreds,
        c.tens,
        c.ones,
    ]
}

fn refuse(number: u8) -> Reading
    ensures { result ≡ refused number }
{
    Reading {
        refusal: number,
        digits: [0; 12],
    }
}

// Reads the octets. Other than five are 13, a number above 999,999,999,999 is 12.
pub fn read(octets: &[u8]) -> Reading
    ensures { result ≡ read_of octets.now }
{
    if octets.len() != 5 {
        return refuse(13);
    }
    let n = worth_of(octets, 256, 0);
    if 999999999999 < n {
        return refuse(12);
    }
    Reading {
        refusal: 0,
        digits: spelled(n),
    }
}

// Writes digits, or refuses and leaves the octets as they are. Other than twelve digits are 13, one that is not 30 to 39 hex is 12,
// other than five octets are 11.
pub fn write(digits: &[u8], octets: &mut [u8]) -> u8
    ensures { (result ≡ write_number digits.now (length octets.old))
        × (octets.new ≡ write_to digits.now octets.old) }
{
    if digits.len() != 12 {
        return 13;
    }
    if !all_within(digits, 48, 57) {
        return 12;
    }
    if octets.len() != 5 {
        return 11;
    }
    let n = worth_of(digits, 10, 48);
    put(&mut *octets, n);
    0
}
