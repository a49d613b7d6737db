// Originator indication (44.068, 9.4.4): a half octet.
ghost use Rattle.std.specs.Prelude.{◌≡◌};
ghost use Rattle.gcc.specs.Originator.{read_of, written_of};

use crate::{is_set, one_if};

// OI: the MS is the originator of the call.
#[derive(Clone, Copy)]
pub struct Reading {
    pub refusal: u8,
    pub oi: bool,
}

// Reads the half octet, its spare bits ignored. Above 15 is 12.
pub fn read(half: u8) -> Reading
    ensures { result ≡ read_of half }
{
    if 15 < half {
        return Reading {
            refusal: 12,
            oi: false,
        };
    }
    Reading {
        refusal: 0,
        oi: is_set(half, 1),
    }
}

// The half octet that says oi, its spare bits zero.
pub fn write(oi: bool) -> u8
    ensures { result ≡ written_of oi }
{
    one_if(oi)
}
