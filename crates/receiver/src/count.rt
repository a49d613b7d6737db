// The cell's count: how it is taken and raised, and whether a complete ciphered call can be followed with it.
ghost use Rattle.std.specs.Prelude.{◌≡◌};
ghost use Rattle.receiver.specs.Count.{bits, counting, counting_over, raised, cell_with, holds, follow_of, count_beside};

use crate::{Cell, NO_BIT, NO_COUNT};

// By one, modulo 4.
fn raised(n: u8) -> u8
    ensures { result ≡ raised n }
{
    (n % 4 + 1) % 4
}

// What is known of the cell, behind a count of an NCH or PCH message, if it has one.
pub fn taken(cell: Cell, counted: bool, count: u8) -> Cell
    ensures { result ≡ cell_with cell (counting counted count) }
{
    if counted {
        Cell { count, ..cell }
    } else {
        cell
    }
}

// The same of a FACCH message: its count is not taken while no bit is known, and is first raised where its B22 was 1 while the bit is 0.
pub fn taken_over(cell: Cell, counted: bool, b22: bool, count: u8) -> Cell
    ensures { result ≡ cell_with cell (counting_over counted b22 count) }
{
    if !counted || NO_BIT <= cell.bit {
        return cell;
    }
    let behind = b22 && cell.bit == 0;
    Cell {
        count: if behind { raised(count) } else { count },
        ..cell
    }
}

// The same behind a value of bit 22: a change from 1 to 0 raises a count that is kept.
pub fn turned(cell: Cell, bit: u8) -> Cell
    ensures { result ≡ cell_with cell (bits bit) }
{
    let raises = cell.bit == 1 && bit == 0 && cell.count < NO_COUNT;
    Cell {
        count: if raises {
            raised(cell.count)
        } else {
            cell.count
        },
        bit,
        ..cell
    }
}

// The highest number of a group key.
pub const LAST_GROUP_KEY: u8 = 15;

// Whether a set of group keys has a key number.
fn holds(set: u32, n: u8) -> bool
    ensures { result ≡ holds set n }
{
    1 <= n && n <= LAST_GROUP_KEY && (set >> n) % 2 == 1
}

// Whether a call that was told a number can be followed: 1 no key, 2 no count, 3 follow; 0 beside other numbers than 2 and 3.
#[tactic(auto, unfolding(crate::specs::Count::follow_of))]
pub fn follow(set: u32, cell: Cell, number: u8, cipher: u8) -> u8
    ensures { result ≡ follow_of set cell number cipher }
{
    if number < 2 || 3 < number {
        0
    } else if !holds(set, cipher) {
        1
    } else if cell.count < NO_COUNT {
        3
    } else {
        2
    }
}

// The kept count, beside 3.
pub fn beside(follow: u8, cell: Cell) -> u8
    ensures { result ≡ count_beside follow cell }
{
    if follow == 3 { cell.count } else { 0 }
}
