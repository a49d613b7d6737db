// Call state as a number; 12 stands for every reserved one.
ghost use Rattle.std.specs.Prelude.{◌≡◌, length, get_or, eqb};
ghost use Rattle.bits.specs.Field.{pick};
ghost use Rattle.csn1.specs.Told.{padded};
ghost use Rattle.gcc.specs.CallState.{state_of, read_of, written_of};
ghost use Rattle.gcc_numbers.specs.ElementNumbers.{code_for, state_numbers, state_most};

use arrays::{fill, limits};
use gcc::call_state;

const MOST: [u64; 1] = [12];

pub fn read(half: u8, numbers: &mut [u64]) -> u8
    ensures { (result ≡ (read_of half).refusal) × (numbers.new ≡ padded 0 (length numbers.old) (state_numbers (read_of half))) }
{
    let m = call_state::read(half);
    let state = m.state;
    let all = [call_state::number_of(state) as u64];
    fill::store(&all, numbers);
    m.refusal
}

pub fn write(numbers: &[u64], half: &mut u8) -> u8
    ensures { (result ≡ code_for 1 state_most numbers.now (written_of (state_of (get_or numbers.now 0 0))).refusal)
        × (half.new ≡ pick (eqb result 0) (written_of (state_of (get_or numbers.now 0 0))).half half.old) }
{
    if numbers.len() != 1 {
        return 13;
    }
    if !limits::holds(numbers, &MOST) {
        return 12;
    }
    let w = call_state::write(call_state::state_of(numbers[0] as u8));
    if w.refusal != 0 {
        return w.refusal;
    }
    *half = w.half;
    0
}
