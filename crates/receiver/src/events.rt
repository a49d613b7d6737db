// What each kind of event takes of the halves, and what is known of the cell behind it.
ghost use Rattle.std.specs.Prelude.{◌≡◌, true};
ghost use Rattle.bits.specs.Field.{both};
ghost use Rattle.receiver.specs.Channels.{key_count, Channel, hasNln, has_pages, drops, forgets, forgets_count};
ghost use Rattle.receiver.specs.Model.{rule_for};
ghost use Rattle.receiver.specs.Step.{changes, numbering, moving, cell_by};

use crate::{Cell, Move, NO_BIT, NO_COUNT, NO_NLN, Rule, store};

// ## A message's NLN

// Stays: a flag and a number for an NLN, and in count for a message's count: a notification has the two apart, and docs/PROMISES.md names these functions.

// Whether a message has another NLN than the last one seen; the first one seen is no change.
pub fn nln_changes(cell: Cell, numbered: bool, nln: u8) -> bool
    ensures { result ≡ both numbered (changes cell nln) }
{
    numbered && cell.nln != NO_NLN && cell.nln != nln
}

// NCH halves go where the NLN changes.
pub fn nln_rule(cell: Cell, numbered: bool, nln: u8) -> Rule
    ensures { result ≡ rule_for (λ (c : Channel). both (hasNln c) (both numbered (changes cell nln))) key_count }
{
    Rule {
        nch: nln_changes(cell, numbered, nln),
        ..store::keep()
    }
}

// What is known of the cell, behind a message's NLN.
pub fn nln_cell(cell: Cell, numbered: bool, nln: u8) -> Cell
    ensures { result ≡ cell_by cell (numbering numbered nln) }
{
    if numbered { Cell { nln, ..cell } } else { cell }
}

// ## Joins and moves

// A join costs the halves of all channels, save those under the key at an index.
pub fn join_rule(but: usize) -> Rule
    ensures { result ≡ rule_for (λ (c : Channel). true) but }
{
    Rule {
        nch: true,
        facch: true,
        pch: true,
        but,
    }
}

// An entry of the PCH costs the halves of the PCH, save those under the key at an index.
pub fn page_rule(but: usize) -> Rule
    ensures { result ≡ rule_for has_pages but }
{
    Rule {
        pch: true,
        but,
        ..store::keep()
    }
}

// The halves that a move of the mobile costs.
pub fn move_rule(m: Move) -> Rule
    ensures { result ≡ rule_for (λ (c : Channel). drops c m) key_count }
{
    match m {
        Move::Reselection => Rule {
            nch: true,
            pch: true,
            ..store::keep()
        },
        Move::Handover | Move::Reconfiguration => Rule {
            facch: true,
            ..store::keep()
        },
        Move::LeftIdle => Rule {
            pch: true,
            ..store::keep()
        },
    }
}

// Whether a move makes the NLN unknown.
fn forgets(m: Move) -> bool
    ensures { result ≡ forgets m }
{
    matches!(m, Move::Reselection)
}

// Whether a move makes the cell's count and bit 22 unknown.
fn forgets_count(m: Move) -> bool
    ensures { result ≡ forgets_count m }
{
    matches!(m, Move::Reselection | Move::Handover)
}

// What is known of the cell, behind a move.
pub fn move_cell(cell: Cell, m: Move) -> Cell
    ensures { result ≡ cell_by cell (moving m) }
{
    let mut after = cell;
    if forgets(m) {
        after.nln = NO_NLN;
    }
    if forgets_count(m) {
        after.count = NO_COUNT;
        after.bit = NO_BIT;
    }
    after
}
