// What the writer refuses, one test for each number of document 01's table, over the whole record.
ghost use Rattle.std.specs.Prelude.{◌≡◌};
ghost use Rattle.facch_write.specs.Write.{identity_in_range, page_in_range, page_is_zero, notified_in_range, release6_in_range, release7_in_range, in_range, identity_right, record_refusal};

use csn1::writer;
use facch::{Notification, Page, Release6, Release7};

fn identity_in_range(n: u8, first: u8, rest: u64) -> bool
    ensures { result ≡ identity_in_range n first rest }
{
    if n == 0 {
        return writer::both_hold(first == 0, rest == 0);
    }
    if 8 < n {
        return true;
    }
    rest >> (8 * (n - 1)) == 0
}

fn page_in_range(p: Page) -> bool
    ensures { result ≡ page_in_range p }
{
    let identity = identity_in_range(p.identityLength, p.identityFirst, p.identityRest);
    let priority = writer::flagged_right(p.hasPriority, p.priority as u64, 8);
    writer::both_hold(identity, writer::both_hold(p.channelFirst < 4, priority))
}

fn page_is_zero(p: Page) -> bool
    ensures { result ≡ page_is_zero p }
{
    let rest = writer::both_hold(
        p.channelFirst == 0,
        writer::both_hold(!p.hasPriority, p.priority == 0),
    );
    let octets = writer::both_hold(p.identityRest == 0, rest);
    writer::both_hold(
        p.identityLength == 0,
        writer::both_hold(p.identityFirst == 0, octets),
    )
}

fn notified_in_range(m: Notification) -> bool
    ensures { result ≡ notified_in_range m }
{
    let c = m.call;
    let p = m.page;
    if m.paging {
        return writer::both_hold(call::writer::is_zero(c), page_in_range(p));
    }
    writer::both_hold(call::writer::in_range(c), page_is_zero(p))
}

fn release6_in_range(r: Release6) -> bool
    ensures { result ≡ release6_in_range r }
{
    let counted = writer::bit_right(r.hasRelease, r.hasCount);
    let given = writer::bit_right(r.hasRelease, r.hasRandom);
    let count = writer::flagged_right(r.hasCount, r.cellcount as u64, 4);
    let b22 = writer::bit_right(r.hasCount, r.b22);
    let rand = writer::flagged_right(r.hasRandom, r.rand, 68719476736);
    let numbers = writer::both_hold(count, writer::both_hold(b22, rand));
    writer::both_hold(counted, writer::both_hold(given, numbers))
}

fn release7_in_range(r: Release7) -> bool
    ensures { result ≡ release7_in_range r }
{
    let uplink = writer::bit_right(r.hasRelease, r.uplink);
    let emergency = writer::bit_right(r.hasRelease, r.emergency);
    let caused = writer::bit_right(r.hasRelease, r.hasCause);
    let cause = writer::bit_right(r.hasCause, r.cause);
    writer::both_hold(
        uplink,
        writer::both_hold(emergency, writer::both_hold(caused, cause)),
    )
}

// Refusal 12 is not due.
fn in_range(m: Notification) -> bool
    ensures { result ≡ in_range m }
{
    let six = m.release6;
    let seven = m.release7;
    let releases = writer::both_hold(release6_in_range(six), release7_in_range(seven));
    writer::both_hold(notified_in_range(m), releases)
}

// Refusal 8 is not due.
fn identity_right(m: Notification) -> bool
    ensures { result ≡ identity_right m }
{
    if m.paging {
        return writer::both_hold(1 <= m.page.identityLength, m.page.identityLength <= 9);
    }
    true
}

// The number of the first refusal that is due before the written form is looked at: 12, 4, 3, 8, 5, or 0 where none is.
pub fn refusal(m: Notification) -> u8
    ensures { result ≡ record_refusal m }
{
    if !in_range(m) {
        return 12;
    }
    let c = m.call;
    if !call::writer::is_low(c) {
        return 4;
    }
    if !call::writer::length_right(c) {
        return 3;
    }
    if !identity_right(m) {
        return 8;
    }
    if !call::writer::hops_right(c) {
        return 5;
    }
    0
}
