// A message as the list of its fields: kind, place, width and value of each that reading meets, up to the last bit used or the refusing bit.
#![tactic(auto)]

ghost use Rattle.std.specs.Prelude.{◌≡◌, length};
ghost use Rattle.trace.specs.Fields.{listing};
ghost use Rattle.trace.specs.NchKinds.{nch_met};
ghost use Rattle.trace.specs.FacchKinds.{facch_met};

use crate::fields::Trace;

pub mod calls;
pub mod fields;
pub mod kinds;
pub mod message;
pub mod rest;

// NT/N Rest Octets: how many fields were met, and each that has four places in the array.
pub fn nch(octets: &[u8], fields: &mut [u64]) -> usize
    ensures { (result ≡ length (nch_met octets.now)) × (fields.new ≡ listing fields.old 0 (nch_met octets.now)) }
{
    if octets.len() != 20 {
        return 0;
    }
    let t = Trace {
        at: 0,
        met: 0,
        good: true,
    };
    let r = rest::rest(octets, t, &mut *fields);
    r.met
}

// NOTIFICATION/FACCH: the same.
pub fn facch(octets: &[u8], fields: &mut [u64]) -> usize
    ensures { (result ≡ length (facch_met octets.now)) × (fields.new ≡ listing fields.old 0 (facch_met octets.now)) }
{
    if octets.len() < 2 {
        return 0;
    }
    if 23 < octets.len() {
        return 0;
    }
    let t = Trace {
        at: 0,
        met: 0,
        good: true,
    };
    let r = message::message(octets, t, &mut *fields);
    r.met
}
