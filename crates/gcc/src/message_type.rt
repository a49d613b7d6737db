// Message type (44.068, 9.3): an octet.
ghost use Rattle.std.specs.Prelude.{◌≡◌};
ghost use Rattle.gcc.specs.MessageType.{number_of, kind_of, read_of, written_of};

use crate::{is_set, one_if};

#[derive(Clone, Copy)]
pub enum Kind {
    ImmediateSetup,
    Setup,
    Connect,
    Termination,
    TerminationRequest,
    TerminationReject,
    Status,
    GetStatus,
    SetParameter,
    ImmediateSetup2,
    // what a refused octet is read as
    Nothing,
}

// The send sequence number is bit 7.
#[derive(Clone, Copy)]
pub struct Reading {
    pub refusal: u8,
    pub sequence: bool,
    pub kind: Kind,
}

#[derive(Clone, Copy)]
pub struct Written {
    pub refusal: u8,
    pub octet: u8,
}

// The number of a message in table 9.1.
pub fn number_of(kind: Kind) -> u8
    ensures { result ≡ number_of kind }
{
    match kind {
        Kind::ImmediateSetup => 0x31,
        Kind::Setup => 0x32,
        Kind::Connect => 0x33,
        Kind::Termination => 0x34,
        Kind::TerminationRequest => 0x35,
        Kind::TerminationReject => 0x36,
        Kind::Status => 0x38,
        Kind::GetStatus => 0x39,
        Kind::SetParameter => 0x3a,
        Kind::ImmediateSetup2 => 0x3b,
        Kind::Nothing => 0,
    }
}

// The message with a number, or nothing.
pub fn kind_of(number: u8) -> Kind
    ensures { result ≡ kind_of number }
{
    match number {
        0x31 => Kind::ImmediateSetup,
        0x32 => Kind::Setup,
        0x33 => Kind::Connect,
        0x34 => Kind::Termination,
        0x35 => Kind::TerminationRequest,
        0x36 => Kind::TerminationReject,
        0x38 => Kind::Status,
        0x39 => Kind::GetStatus,
        0x3a => Kind::SetParameter,
        0x3b => Kind::ImmediateSetup2,
        _ => Kind::Nothing,
    }
}

// Reads the octet. A message that the table does not have, or bit 8 set, is 12.
pub fn read(octet: u8) -> Reading
    ensures { result ≡ read_of octet }
{
    let kind = kind_of(octet / 128 * 128 + octet % 64);
    if number_of(kind) == 0 {
        return Reading {
            refusal: 12,
            sequence: false,
            kind: Kind::Nothing,
        };
    }
    Reading {
        refusal: 0,
        sequence: is_set(octet, 7),
        kind,
    }
}

// Writes a message and its send sequence number. Nothing is 12.
pub fn write(sequence: bool, kind: Kind) -> Written
    ensures { result ≡ written_of sequence kind }
{
    let number = number_of(kind);
    if number == 0 {
        return Written {
            refusal: 12,
            octet: 0,
        };
    }
    Written {
        refusal: 0,
        octet: one_if(sequence) * 64 + number,
    }
}
