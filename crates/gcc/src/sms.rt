// SMS indications (44.068, 9.4.10): a half octet.
ghost use Rattle.std.specs.Prelude.{◌≡◌};
ghost use Rattle.gcc.specs.Sms.{read_of, written_of};

use crate::{is_set, one_if};

// DC: SMS data confidentiality is required. GP: SMS guaranteed privacy is required.
#[derive(Clone, Copy)]
pub struct Indications {
    pub dc: bool,
    pub gp: bool,
}

#[derive(Clone, Copy)]
pub struct Reading {
    pub refusal: u8,
    pub indications: Indications,
}

// Reads the half octet, its spare bits ignored. Above 15 is 12.
pub fn read(half: u8) -> Reading
    ensures { result ≡ read_of half }
{
    if 15 < half {
        return Reading {
            refusal: 12,
            indications: Indications {
                dc: false,
                gp: false,
            },
        };
    }
    Reading {
        refusal: 0,
        indications: Indications {
            dc: is_set(half, 2),
            gp: is_set(half, 1),
        },
    }
}

// The half octet that says the indications, its spare bits zero.
pub fn write(indications: Indications) -> u8
    ensures { result ≡ written_of indications }
{
    one_if(indications.dc) * 2 + one_if(indications.gp)
}
