// NOTIFICATION/FACCH (44.018, 9.1.21a): 2 to 23 octets on the channel of a call in progress, read.
#![tactic(auto)]

ghost use Rattle.std.specs.Prelude.{◌≡◌, ◌≤◌, length};
ghost use Rattle.csn1.specs.Format.{bad};
ghost use Rattle.csn1.specs.Grammar.{one_of, format};
ghost use Rattle.call.specs.Call.{call_grammar};
ghost use Rattle.facch.specs.Message.{paging};
ghost use Rattle.facch.specs.Told.{read_of, reading_of};
ghost use Rattle.facch.specs.Inner.{notified_at_of};

use bits::Got;
use call::{Call, Description};
use csn1::Refusal;

mod additions;
mod pages;
mod taking;

// Paging Information: which mobile station is paged, on which channel, and how urgently.
#[derive(Clone, Copy)]
pub struct Page {
    // The octets of the mobile identity, 1 to 9.
    pub identityLength: u8,
    // The first of them: the kind of identity, and its first digit.
    pub identityFirst: u8,
    // The others as one number: of a TMSI the TMSI.
    pub identityRest: u64,
    // Channel first, as Channel Needed has it.
    pub channelFirst: u8,
    pub hasPriority: bool,
    // eMLPP priority.
    pub priority: u8,
}

// What Release 6 added.
#[derive(Clone, Copy)]
pub struct Release6 {
    pub hasRelease: bool,
    pub hasCount: bool,
    // CELL_GLOBAL_COUNT.
    pub cellcount: u8,
    // B22_COUNT.
    pub b22: bool,
    pub hasRandom: bool,
    // VSTK_RAND, 36 bits.
    pub rand: u64,
}

// What Release 7 added.
#[derive(Clone, Copy)]
pub struct Release7 {
    pub hasRelease: bool,
    // Priority Uplink Access: on the group channel where true.
    pub uplink: bool,
    // Emergency_Ind.
    pub emergency: bool,
    // Whether a Paging Cause stands there; without one the paging is for a mobile terminating call.
    pub hasCause: bool,
    // Paging Cause: a short message where true, a mobile terminating call where false. A call's is kept and means nothing.
    pub cause: bool,
}

// The record of a notification: a call or, where paging is true, a page. What is absent is zero.
#[derive(Clone, Copy)]
pub struct Notification {
    pub paging: bool,
    pub call: Call,
    pub page: Page,
    pub release6: Release6,
    pub release7: Release7,
}

// What reading gives: the record and the number of bits used, or why not, and then both are zero.
#[derive(Drop)]
pub struct Reading {
    pub refusal: Refusal,
    pub used: usize,
    pub record: Notification,
}

// What is notified and the place behind it, or why not.
#[derive(Drop)]
struct NotifiedAt {
    refusal: Refusal,
    paging: bool,
    call: Call,
    page: Page,
    at: usize,
}

fn refused_notified(refusal: Refusal) -> NotifiedAt
    ensures { result ≡ notified_at_of (bad refusal) }
{
    NotifiedAt {
        refusal,
        paging: false,
        call: call::no_call(),
        page: pages::no_page(),
        at: 0,
    }
}

// The same call, made of its fields: a copy of what was just written field by field would wait for all of them (4 ns in every event).
fn anew(c: Call) -> Call
    ensures { result ≡ c }
{
    let d = c.description;
    Call {
        reference: c.reference,
        vgcs: c.vgcs,
        acknowledged: c.acknowledged,
        priority: c.priority,
        cipher: c.cipher,
        hasDescription: c.hasDescription,
        description: Description {
            channel: d.channel,
            hopping: d.hopping,
            shortlist: d.shortlist,
            length: d.length,
            frequencies: d.frequencies,
        },
    }
}

// {0 <Group Call information> | 1 <Paging Information>}. A refusal goes through untested, so that the way of a call has one test of it.
fn read_notified(octets: &[u8]) -> NotifiedAt
    requires { length octets.now ≤ 4096 }
    ensures { result ≡ notified_at_of ((format (one_of call_grammar paging)).read octets.now 8) }
{
    let Got::Bits(paging) = bits::reader::field(octets, 8, 1) else {
        return refused_notified(csn1::ran_out(8));
    };
    if paging != 0 {
        let p = pages::read(octets, 9);
        let refusal = p.refusal;
        let page = p.page;
        return NotifiedAt {
            refusal,
            paging: p.refusal.number == 0,
            call: call::no_call(),
            page,
            at: p.at,
        };
    }
    let c = call::read(octets, 9);
    let refusal = c.refusal;
    let call = anew(c.call);
    NotifiedAt {
        refusal,
        paging: false,
        call,
        page: pages::no_page(),
        at: c.at,
    }
}

fn refused(refusal: Refusal) -> Reading
    ensures { result ≡ reading_of (bad refusal) }
{
    Reading {
        refusal,
        used: 0,
        record: Notification {
            paging: false,
            call: call::no_call(),
            page: pages::no_page(),
            release6: additions::no_release6(),
            release7: additions::no_release7(),
        },
    }
}

// A field at a time, each asked for: every message, and every refusal with its bit.
fn read_asking(octets: &[u8]) -> Reading
    ensures { result ≡ read_of octets.now }
{
    if octets.len() < 2 {
        return refused(csn1::ground(1));
    }
    if 23 < octets.len() {
        return refused(csn1::ground(1));
    }
    let n = read_notified(octets);
    if n.refusal.number != 0 {
        return refused(n.refusal);
    }
    let six = additions::read_release6(octets, n.at);
    if six.refusal.number != 0 {
        return refused(six.refusal);
    }
    let seven = additions::read_release7(octets, six.at);
    if seven.refusal.number != 0 {
        return refused(seven.refusal);
    }
    let call = n.call;
    let page = n.page;
    let release6 = six.release;
    let release7 = seven.release;
    Reading {
        refusal: csn1::no_refusal(),
        used: seven.at,
        record: Notification {
            paging: n.paging,
            call,
            page,
            release6,
            release7,
        },
    }
}

// Reads any octets. The first is not looked at. A call that is taken from words is answered at once; what is not goes the way that asks, from the beginning.
pub fn read(octets: &[u8]) -> Reading
    ensures { result ≡ read_of octets.now }
{
    let q = taking::message(octets);
    if q.done {
        let call = q.call;
        let release6 = q.release6;
        let release7 = q.release7;
        return Reading {
            refusal: csn1::no_refusal(),
            used: q.used,
            record: Notification {
                paging: false,
                call,
                page: pages::no_page(),
                release6,
                release7,
            },
        };
    }
    read_asking(octets)
}
