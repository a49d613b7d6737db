// Call reference (44.068, 9.4.1): four octets.
ghost use Rattle.std.specs.Prelude.{◌≡◌, length};
ghost use Rattle.gcc.specs.CallReference.{number_of, priority_of, without_spare, refused, read_of, write_number, write_to};

use crate::{put, wide, worth_of};

// Absent is the element without a priority.
#[derive(Clone, Copy)]
pub enum Priority {
    Absent,
    Reserved,
    Level4,
    Level3,
    Level2,
    Level1,
    Level0,
    LevelB,
    LevelA,
}

#[derive(Clone, Copy)]
pub struct Reading {
    pub refusal: u8,
    pub reference: u32,
    pub priority: Priority,
}

// The five bits behind the reference that say a priority: the flag, the three bits of table 9.2 and a spare bit.
pub fn number_of(priority: Priority) -> u8
    ensures { result ≡ number_of priority }
{
    match priority {
        Priority::Absent => 0b0_0000,
        Priority::Reserved => 0b1_000_0,
        Priority::Level4 => 0b1_001_0,
        Priority::Level3 => 0b1_010_0,
        Priority::Level2 => 0b1_011_0,
        Priority::Level1 => 0b1_100_0,
        Priority::Level0 => 0b1_101_0,
        Priority::LevelB => 0b1_110_0,
        Priority::LevelA => 0b1_111_0,
    }
}

// The priority that five bits say, where the spare bits are zero.
pub fn priority_of(number: u8) -> Priority
    ensures { result ≡ priority_of number }
{
    match number {
        0b0_0000 => Priority::Absent,
        0b1_001_0 => Priority::Level4,
        0b1_010_0 => Priority::Level3,
        0b1_011_0 => Priority::Level2,
        0b1_100_0 => Priority::Level1,
        0b1_101_0 => Priority::Level0,
        0b1_110_0 => Priority::LevelB,
        0b1_111_0 => Priority::LevelA,
        _ => Priority::Reserved,
    }
}

// The element's 32 bits with the spare ones zero: four where there is no priority, else one.
fn without_spare(n: u64) -> u64
    ensures { result ≡ without_spare n }
{
    if n / 16 % 2 == 0 {
        return n / 16 * 16;
    }
    n / 2 * 2
}

fn refuse(number: u8) -> Reading
    ensures { result ≡ refused number }
{
    Reading {
        refusal: number,
        reference: 0,
        priority: Priority::Absent,
    }
}

// Reads the octets, their spare bits ignored. Other than four octets are 13, a reference above 99,999,999 is 4.
pub fn read(octets: &[u8]) -> Reading
    ensures { result ≡ read_of octets.now }
{
    if octets.len() != 4 {
        return refuse(13);
    }
    let n = worth_of(octets, 256, 0);
    if 99999999 < n / 32 {
        return refuse(4);
    }
    Reading {
        refusal: 0,
        reference: (n / 32) as u32,
        priority: priority_of((without_spare(n) % 32) as u8),
    }
}

// Writes a reference and a priority, the spare bits zero, or refuses and leaves the octets as they are. A reference of more than 27 bits
// and reserved are 12, a reference above 99,999,999 is 4, other than four octets are 11.
pub fn write(reference: u32, priority: Priority, octets: &mut [u8]) -> u8
    ensures { (result ≡ write_number reference priority (length octets.old))
        × (octets.new ≡ write_to reference priority octets.old) }
{
    let number = number_of(priority);
    if 134217727 < reference {
        return 12;
    }
    if number == 0b1_000_0 {
        return 12;
    }
    if 99999999 < reference {
        return 4;
    }
    if octets.len() != 4 {
        return 11;
    }
    put(&mut *octets, reference as u64 * 32 + wide(number));
    0
}
