// Paging Information (44.018, 9.1.21a): the mobile station that is paged on the channel of a call.
ghost use Rattle.std.specs.Prelude.{◌≡◌, ◌≤◌, length};
ghost use Rattle.csn1.specs.Format.{bad};
ghost use Rattle.csn1.specs.Grammar.{format};
ghost use Rattle.facch.specs.Message.{identity, paging};
ghost use Rattle.facch.specs.Told.{no_page};
ghost use Rattle.facch.specs.Inner.{identity_at_of, page_at_of};

use crate::Page;
use bits::Got;
use csn1::Refusal;

// What reading a mobile identity gives: its octets and the place behind them, or why not.
#[derive(Drop)]
struct IdentityAt {
    refusal: Refusal,
    length: u8,
    first: u8,
    rest: u64,
    at: usize,
}

// The same of all Paging Information.
#[derive(Drop)]
pub struct PageAt {
    pub refusal: Refusal,
    pub page: Page,
    pub at: usize,
}

// Nobody is paged.
pub fn no_page() -> Page
    ensures { result ≡ no_page }
{
    Page {
        identityLength: 0,
        identityFirst: 0,
        identityRest: 0,
        channelFirst: 0,
        hasPriority: false,
        priority: 0,
    }
}

fn refused_identity(refusal: Refusal) -> IdentityAt
    ensures { result ≡ identity_at_of (bad refusal) }
{
    IdentityAt {
        refusal,
        length: 0,
        first: 0,
        rest: 0,
        at: 0,
    }
}

// <mobile identity : <bit string>>. Refusal 8 is given as soon as the length octet is in; its octets are one field.
fn read_identity(s: &[u8], at: usize) -> IdentityAt
    requires { length s.now ≤ 4096 }
    ensures { result ≡ identity_at_of ((format identity).read s.now at) }
{
    let Got::Bits(length) = bits::reader::field(s, at, 8) else {
        return refused_identity(csn1::ran_out(at));
    };
    if length < 1 {
        return refused_identity(csn1::ground(8));
    }
    if 9 < length {
        return refused_identity(csn1::ground(8));
    }
    let width = 8 * (length as usize - 1);
    let Got::Bits(rest) = bits::reader::field(s, at + 16, width) else {
        return refused_identity(csn1::ran_out(at + 8));
    };
    let Got::Bits(first) = bits::reader::field(s, at + 8, 8) else {
        return refused_identity(csn1::ran_out(at + 8));
    };
    IdentityAt {
        refusal: csn1::no_refusal(),
        length: length as u8,
        first: first as u8,
        rest,
        at: at + 16 + width,
    }
}

fn refused_page(refusal: Refusal) -> PageAt
    ensures { result ≡ page_at_of (bad refusal) }
{
    PageAt {
        refusal,
        page: no_page(),
        at: 0,
    }
}

// <Paging Information>
pub(crate) fn read(s: &[u8], at: usize) -> PageAt
    requires { length s.now ≤ 4096 }
    ensures { result ≡ page_at_of ((format paging).read s.now at) }
{
    let i = read_identity(s, at);
    if i.refusal.number != 0 {
        return refused_page(i.refusal);
    }
    let Got::Bits(channel) = bits::reader::field(s, i.at, 2) else {
        return refused_page(csn1::ran_out(i.at));
    };
    let p = csn1::read_flagged(s, i.at + 2, 3);
    if p.refusal.number != 0 {
        return refused_page(p.refusal);
    }
    PageAt {
        refusal: csn1::no_refusal(),
        page: Page {
            identityLength: i.length,
            identityFirst: i.first,
            identityRest: i.rest,
            channelFirst: channel as u8,
            hasPriority: p.hasValue,
            priority: p.value as u8,
        },
        at: p.at,
    }
}
