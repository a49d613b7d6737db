// What a message says of a call, of whom it pages, and of a random entry.
ghost use Rattle.std.specs.Prelude.{◌≡◌};
ghost use Rattle.std.proofs.Math.Option.{none};
ghost use Rattle.receiver.specs.Model.{no_paged};
ghost use Rattle.receiver.specs.Entries.{owned_of, facch_entry, paged_of, pch_entry};

use crate::{Common, Paged, Record, meeting};
use facch::Page;

// What a FACCH message says of its call.
#[tactic(auto, unfolding(crate::specs::Entries::facch_entry))]
pub fn facch_entry(m: facch::Notification) -> Record
    ensures { result ≡ facch_entry m }
{
    Record {
        full: true,
        call: m.call,
        hasRandom: m.release6.hasRandom,
        rand: m.release6.rand,
        emergency: m.release7.emergency,
        common: Common {
            hasCount: m.release6.hasCount,
            cellcount: m.release6.cellcount,
            b22: m.release6.b22,
            hasUplink: m.release7.hasRelease,
            uplink: m.release7.uplink,
            ..meeting::no_common()
        },
        ..meeting::no_record()
    }
}

// Nobody is paged.
pub fn no_paged() -> Paged
    ensures { result ≡ no_paged }
{
    Paged {
        there: false,
        page: Page {
            identityLength: 0,
            identityFirst: 0,
            identityRest: 0,
            channelFirst: 0,
            hasPriority: false,
            priority: 0,
        },
        hasCause: false,
        cause: false,
    }
}

// Who is paged by a FACCH message.
#[tactic(auto, unfolding(crate::specs::Entries::paged_of))]
pub fn paged_of(m: facch::Notification) -> Paged
    ensures { result ≡ paged_of m }
{
    if !m.paging {
        return no_paged();
    }
    Paged {
        there: true,
        page: m.page,
        hasCause: m.release7.hasCause,
        cause: m.release7.cause,
    }
}

// What an entry of the PCH says of its call. A VSTK_RAND is of use to a call that is ciphered, and to a reduced reference that is not marked so it is none.
#[tactic(auto, unfolding(crate::specs::Entries::pch_entry))]
pub fn pch_entry(p: pch::Entry) -> Record
    ensures { result ≡ pch_entry p }
{
    let given = p.hasRandom && (p.full || p.ciphered);
    Record {
        full: p.full,
        call: p.call,
        hasRandom: given,
        rand: if given { p.rand } else { 0 },
        common: Common {
            hasCount: p.hasCount,
            cellcount: p.cellcount,
            ..meeting::no_common()
        },
        ..meeting::no_record()
    }
}

// The random entry that an entry owns, and all zero where it owns none.
#[derive(Drop)]
pub struct Owned {
    pub hasSegment: bool,
    pub segment: bool,
    pub hasRandom: bool,
    pub rand: u64,
}

pub fn owns_none() -> Owned
    ensures { result ≡ owned_of none }
{
    Owned {
        hasSegment: false,
        segment: false,
        hasRandom: false,
        rand: 0,
    }
}
