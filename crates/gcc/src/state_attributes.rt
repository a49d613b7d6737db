// State attributes (44.068, 9.4.7): a half octet with no spare bit.
ghost use Rattle.std.specs.Prelude.{◌≡◌};
ghost use Rattle.gcc.specs.StateAttributes.{read_of, written_of};

use crate::{is_set, one_if};

// DA, UA: the user connection in the downlink, and in the uplink, is attached. OI: the MS is the originator of the call.
#[derive(Clone, Copy)]
pub struct Attributes {
    pub da: bool,
    pub ua: bool,
    pub comm: bool,
    pub oi: bool,
}

#[derive(Clone, Copy)]
pub struct Reading {
    pub refusal: u8,
    pub attributes: Attributes,
}

// Reads the half octet. Above 15 is 12.
pub fn read(half: u8) -> Reading
    ensures { result ≡ read_of half }
{
    if 15 < half {
        return Reading {
            refusal: 12,
            attributes: Attributes {
                da: false,
                ua: false,
                comm: false,
                oi: false,
            },
        };
    }
    Reading {
        refusal: 0,
        attributes: Attributes {
            da: is_set(half, 4),
            ua: is_set(half, 3),
            comm: is_set(half, 2),
            oi: is_set(half, 1),
        },
    }
}

// The half octet that says the attributes.
pub fn write(attributes: Attributes) -> u8
    ensures { result ≡ written_of attributes }
{
    one_if(attributes.da) * 8
        + one_if(attributes.ua) * 4
        + one_if(attributes.comm) * 2
        + one_if(attributes.oi)
}
