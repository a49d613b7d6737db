// The elements of 44.068 on arrays of numbers, in the order that include/asternhaken.h gives, for test rigs.
#![tactic(auto)]

ghost use Rattle.std.specs.Prelude.{◌≡◌, ◌+◌, ◌≤◌, length, replicate};
ghost use Rattle.std.proofs.lemmas.List.Edits.{sets};
ghost use Rattle.arrays.specs.Limits.{within, octet};
ghost use Rattle.gcc_numbers.specs.Inner.{AllOctets};

pub mod call_reference;
pub mod call_state;
pub mod cause;
pub mod digits;
pub mod message_type;
pub mod originator;
pub mod sms;
pub mod state_attributes;
pub mod talker;

// Whether each number is an octet.
fn are_octets(numbers: &[u64]) -> bool
    ensures { result ≡ within numbers.now (replicate (length numbers.now) octet) }
{
    let mut i: usize = 0;
    while i < numbers.len() {
        if 255 < numbers[i] {
            return false;
        }
        i += 1;
    }
    true
}

// Numbers as octets.
fn narrow(numbers: &[u64], octets: &mut [u8])
    requires { (length octets.old ≡ length numbers.now) × AllOctets numbers.now }
    ensures { octets.new ≡ numbers.now }
{
    let mut i: usize = 0;
    while i < numbers.len() {
        octets[i] = numbers[i] as u8;
        i += 1;
    }
}

// Octets as numbers, from a place on; what has no place is left out.
fn widen(octets: &[u8], numbers: &mut [u64], at: usize)
    requires { at + length octets.now ≤ 65535 }
    ensures { numbers.new ≡ sets numbers.old at octets.now }
{
    let mut i: usize = 0;
    while i < octets.len() {
        arrays::fill::put(&mut *numbers, at + i, octets[i] as u64);
        i += 1;
    }
}
