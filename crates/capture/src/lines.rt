// The text of a field: a line of four numbers, and under it a line for each entry. It is put straight into the lent octets.
ghost use Rattle.std.specs.Prelude.{◌≡◌, ◌+◌, ◌*◌, ◌<◌, ◌≤◌, [], ◌∷◌, ◌++◌, length, take};
ghost use Rattle.receiver.specs.Step.{most_entries};
ghost use Rattle.layout.specs.Layout.{state_length, last_of};
ghost use Rattle.text.specs.Lines.{added};
ghost use Rattle.text.specs.Digits.{decimal};
ghost use Rattle.capture.specs.Replay.{told, entry_text, entries_text, field_text, line_text};
ghost use Rattle.capture.specs.Machine.{most_text};
ghost use Rattle.capture.specs.Mend.{left_text};
ghost use Rattle.capture.specs.Inner.{shown_by};

use layout::parts::part_of;
use receiver::MOST_ENTRIES;
use text::{put, put_decimal};

// The most octets that the text of a field has: four numbers of twenty digits, and two for each entry.
pub(crate) const MOST: usize = 4 * 21 + MOST_ENTRIES * (2 + 2 * 21);

// The parts of an answer: expiries, drops, the number of entries; an entry's key and number told.
const EXPIRED: usize = 0;

const DROPPED: usize = 1;

const COUNT: usize = 2;

const KEY: usize = 3;

const NUMBER: usize = 4;

// Puts one digit, and an octet behind it: most numbers of a line are below ten.
fn put_digit(out: &mut [u8], at: usize, n: u64, behind: u8) -> usize
    requires { (at + 21 ≤ length out.old) × (n < 10) }
    ensures { record { octets = out.new; at = result } ≡ added (decimal n ++ (behind ∷ [])) (record { octets = out.old; at = at }) }
{
    out[at] = b'0' + n as u8;
    out[at + 1] = behind;
    at + 2
}

// Puts a number, and an octet behind it.
fn put_number(out: &mut [u8], at: usize, n: u64, behind: u8) -> usize
    requires { at + 21 ≤ length out.old }
    ensures { record { octets = out.new; at = result } ≡ added (decimal n ++ (behind ∷ [])) (record { octets = out.old; at = at }) }
{
    if n < 10 {
        return put_digit(out, at, n, behind);
    }
    let end = put_decimal(out, at, n).unwrap();
    out[end] = behind;
    end + 1
}

// The line of a field.
pub(crate) fn put_field(
    out: &mut [u8],
    at: usize,
    number: u64,
    tag: u8,
    refusal: u32,
    dropped: u64,
) -> usize
    requires { at + 4 * 21 ≤ length out.old }
    ensures { record { octets = out.new; at = result } ≡ added (field_text number tag refusal dropped) (record { octets = out.old; at = at }) }
{
    let at = put_number(out, at, number, b' ');
    let at = put_number(out, at, tag as u64, b' ');
    let at = put_number(out, at, refusal as u64, b' ');
    put_number(out, at, dropped, b'\n')
}

// The line of an entry.
fn put_entry(out: &mut [u8], at: usize, key: u64, number: u64) -> usize
    requires { at + 44 ≤ length out.old }
    ensures { record { octets = out.new; at = result } ≡ added (entry_text (key, number)) (record { octets = out.old; at = at }) }
{
    let at = put(out, at, b"  ").unwrap();
    let at = put_number(out, at, key, b' ');
    put_number(out, at, number, b'\n')
}

// The lines of the entries that the lent state tells.
fn put_entries(out: &mut [u8], at: usize, state: &[u8]) -> usize
    requires { (at + most_entries * 44 ≤ length out.old) × (length state.now ≡ state_length) }
    ensures { record { octets = out.new; at = result } ≡ added (entries_text (told (take (last_of state.now).count (last_of state.now).entries))) (record { octets = out.old; at = at }) }
{
    let count = part_of(state, 0, COUNT);
    let mut at = at;
    for j in 0..count.min(MOST_ENTRIES as u64) as usize {
        at = put_entry(out, at, part_of(state, j, KEY), part_of(state, j, NUMBER));
    }
    at
}

// The text of a field: what the lent state tells where it was accepted, and the refusal alone where not.
pub(crate) fn put_answer(
    out: &mut [u8],
    at: usize,
    number: u64,
    tag: u8,
    refusal: u32,
    state: &[u8],
) -> usize
    requires { (at + most_text ≤ length out.old) × (length state.now ≡ state_length) }
    ensures { record { octets = out.new; at = result } ≡ added (line_text number (shown_by tag refusal (last_of state.now))) (record { octets = out.old; at = at }) }
{
    if refusal != 0 {
        return put_field(out, at, number, tag, refusal, 0);
    }
    let dropped = part_of(state, 0, EXPIRED) + part_of(state, 0, DROPPED);
    let at = put_field(out, at, number, tag, refusal, dropped);
    put_entries(out, at, state)
}

// The line of a field that is left out.
pub(crate) fn put_left(out: &mut [u8], at: usize, number: u64, offset: u64, refusal: u32) -> usize
    requires { at + 3 * 21 ≤ length out.old }
    ensures { record { octets = out.new; at = result } ≡ added (left_text number offset refusal) (record { octets = out.old; at = at }) }
{
    let at = put_number(out, at, number, b' ');
    let at = put_number(out, at, offset, b' ');
    put_number(out, at, refusal as u64, b'\n')
}
