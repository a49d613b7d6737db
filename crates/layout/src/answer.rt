// The clock, what is known of the cell, and the answer to the last accepted event: its three numbers, who is paged, and its entries.
ghost use Rattle.std.specs.Prelude.{◌≡◌, ◌<◌, length};
ghost use Rattle.bits.specs.Field.{pick};
ghost use Rattle.receiver.specs.Model.{no_record, no_paged, no_cell};
ghost use Rattle.arrays.specs.Runs.{stored};
ghost use Rattle.layout.specs.Octets.{le_at};
ghost use Rattle.receiver.specs.Step.{most_entries, told_only};
ghost use Rattle.layout.specs.Layout.{tick_from, state_length, is_state, is_entry, cell_at, put_number, put_carried, carried_at, paged_from, paged_octets, put_counts, put_head};

use crate::octets::{put_three, put_two, put_u32, put_u64, u32_at};
use crate::records::{put_octets, put_record};
use crate::{ANSWER, CELL, LENGTH, PAGED, RECORD_LENGTH, TICK, TOLD_LENGTH, TOLDS};
use receiver::{Cell, MOST_ENTRIES, NO_BIT, NO_COUNT, NO_NLN, Paged, Record};

// The tick of the last accepted event.
pub fn tick_of(b: &[u8]) -> u32
    ensures { result ≡ pick (is_state b.now) (le_at 4 b.now tick_from) 0 }
{
    if b.len() != LENGTH {
        return 0;
    }
    u32_at(b, TICK)
}

// What is known of the cell.
pub fn cell_of(b: &[u8]) -> Cell
    ensures { result ≡ pick (is_state b.now) (cell_at b.now) no_cell }
{
    if b.len() != LENGTH {
        return Cell {
            nln: NO_NLN,
            count: NO_COUNT,
            bit: NO_BIT,
        };
    }
    Cell {
        nln: b[CELL],
        count: b[CELL + 1],
        bit: b[CELL + 2],
    }
}

// An entry but for its record: its key, the number told, whether it can be followed and with which count.
fn put_said(b: &mut [u8], j: usize, key: u64, number: u8, follow: u8, kept: u8)
    requires { (length b.old ≡ state_length) × (j < most_entries) }
    ensures { b.new ≡ put_number b.old j (record { key = key; number = number; «record» = no_record; follow = follow; kept = kept }) }
{
    put_u64(b, TOLDS + TOLD_LENGTH * j, key);
    put_three(b, TOLDS + 8 + TOLD_LENGTH * j, number, follow, kept);
}

// An entry without a record.
pub fn put_number(b: &mut [u8], j: usize, key: u64, number: u8)
    ensures { b.new ≡ pick (is_entry b.old j) (put_number b.old j (told_only key number)) b.old }
{
    if b.len() != LENGTH {
        return;
    }
    if MOST_ENTRIES <= j {
        return;
    }
    put_said(b, j, key, number, 0, 0);
}

// An entry with its record. Its parts are handed over one by one: a struct of them would go through memory.
pub fn put_told(b: &mut [u8], j: usize, key: u64, number: u8, follow: u8, kept: u8, e: Record)
    ensures { b.new ≡ pick (is_entry b.old j)
        (put_carried b.old j (record { key = key; number = number; «record» = e; follow = follow; kept = kept })) b.old }
{
    if b.len() != LENGTH {
        return;
    }
    if MOST_ENTRIES <= j {
        return;
    }
    put_said(b, j, key, number, follow, kept);
    put_record(b, TOLDS + 16 + TOLD_LENGTH * j, e);
}

// An entry with its record as octets.
pub fn put_laid(
    b: &mut [u8],
    j: usize,
    key: u64,
    number: u8,
    follow: u8,
    kept: u8,
    o: &[u8; RECORD_LENGTH],
)
    ensures { b.new ≡ pick (is_entry b.old j)
        (carried_at b.old j (record { key = key; number = number; «record» = no_record; follow = follow; kept = kept }) o.now) b.old }
{
    if b.len() != LENGTH {
        return;
    }
    if MOST_ENTRIES <= j {
        return;
    }
    put_said(b, j, key, number, follow, kept);
    put_octets(b, TOLDS + 16 + TOLD_LENGTH * j, o);
}

// The new tick, what is known of the cell then, and the answer's three numbers.
fn put_counts(b: &mut [u8], tick: u32, cell: Cell, expired: u32, dropped: u32, count: u32)
    ensures { b.new ≡ pick (is_state b.old) (put_counts b.old tick cell expired dropped count) b.old }
{
    if b.len() != LENGTH {
        return;
    }
    put_u32(b, TICK, tick);
    put_three(b, CELL, cell.nln, cell.count, cell.bit);
    put_u32(b, ANSWER, expired);
    put_u32(b, ANSWER + 4, dropped);
    put_u32(b, ANSWER + 8, count);
}

// The head of an answer that pages nobody: beside those numbers two stores of zeros.
pub fn put_head(b: &mut [u8], tick: u32, cell: Cell, expired: u32, dropped: u32, count: u32)
    ensures { b.new ≡ pick (is_state b.old) (put_head b.old tick cell expired dropped count no_paged) b.old }
{
    if b.len() != LENGTH {
        return;
    }
    put_counts(b, tick, cell, expired, dropped, count);
    put_u64(b, PAGED, 0);
    put_u64(b, PAGED + 8, 0);
}

// Who is paged.
fn put_paged(b: &mut [u8], p: Paged)
    requires { length b.old ≡ state_length }
    ensures { b.new ≡ stored b.old paged_from (paged_octets p) }
{
    let page = p.page;
    put_three(
        b,
        PAGED,
        p.there as u8,
        page.identityLength,
        page.identityFirst,
    );
    put_three(
        b,
        PAGED + 3,
        page.channelFirst,
        page.hasPriority as u8,
        page.priority,
    );
    put_two(b, PAGED + 6, p.hasCause as u8, p.cause as u8);
    put_u64(b, PAGED + 8, page.identityRest);
}

// The head of an answer that says who is paged: it has no entries.
pub fn put_page(b: &mut [u8], tick: u32, cell: Cell, expired: u32, dropped: u32, p: Paged)
    ensures { b.new ≡ pick (is_state b.old) (put_head b.old tick cell expired dropped 0 p) b.old }
{
    if b.len() != LENGTH {
        return;
    }
    put_counts(b, tick, cell, expired, dropped, 0);
    put_paged(b, p);
}
