// Mending: pieces of a capture go in, in whatever sizes they come; the fields that replay accepts come out, and a list of those left out.
ghost use Rattle.std.specs.Prelude.{◌≡◌, suc, ◌+◌, ◌<◌, ◌≤◌, true, false, [], length, nat_le};
ghost use Rattle.bits.specs.Field.{both};
ghost use Rattle.layout.specs.Layout.{state_length};
ghost use Rattle.capture.specs.Replay.{is_over};
ghost use Rattle.capture.specs.Machine.{kept_length, stage_in};
ghost use Rattle.capture.specs.Mend.{further_by};
ghost use Rattle.capture.specs.Mending.{mending_of, wrote, most_copied, most_listed, MendFed, mend_ended_by, mend_place_ended, mend_begun};
ghost use Rattle.capture.specs.Inner.{MendStepped};

use crate::answers::answer;
use crate::fields::gather;
use crate::lines::put_left;
use crate::replaying::{INPUT_ENDS, end_of, is_over};
use crate::{HEAD, KEPT, Mend, Mended, Replay, replaying};
use text::put;

// The most octets that the line of a field left out has: three numbers of twenty digits.
const MOST: usize = 3 * 21;

// What is held before the first octet.
pub fn begin() -> Mend
    ensures { result ≡ mend_begun }
{
    Mend {
        replay: replaying::begin(),
        offset: 0,
    }
}

// Whether octets have room from a place on for so many.
fn has_room(length: usize, at: usize, most: usize) -> bool
    ensures { result ≡ nat_le (at + most) length }
{
    at <= length && most <= length - at
}

// Whether both the copy and the list have room for a field.
pub fn have_room(copy: usize, copied: usize, list: usize, listed: usize) -> bool
    ensures { result ≡ both (nat_le (copied + most_copied) copy) (nat_le (listed + most_listed) list) }
{
    has_room(copy, copied, KEPT) && has_room(list, listed, MOST)
}

// Where the copy and the list end.
#[derive(Drop)]
struct Ends {
    copied: usize,
    listed: usize,
}

// Copies a field where it is not refused, and lists it where it is.
fn put_part(
    octets: &[u8],
    m: Mend,
    refusal: u32,
    copy: &mut [u8],
    copied: usize,
    list: &mut [u8],
    listed: usize,
) -> Ends
    requires { (copied + length octets.now ≤ length copy.old) × (listed + most_listed ≤ length list.old) }
    ensures { record { copy = record { octets = copy.new; at = result.copied }; list = record { octets = list.new; at = result.listed } }
        ≡ wrote octets.now m.replay.number m.offset refusal
        (record { copy = record { octets = copy.old; at = copied }; list = record { octets = list.old; at = listed } }) }
{
    if refusal == 0 {
        return Ends {
            copied: put(copy, copied, octets).unwrap(),
            listed,
        };
    }
    let r = m.replay;
    Ends {
        copied,
        listed: put_left(list, listed, r.number, m.offset, refusal),
    }
}

// The offset behind a field that has one octet more than so many.
fn further(offset: u64, have: usize) -> u64
    ensures { result ≡ further_by offset (suc have) }
{
    std::num::wrapping_add_u64(std::num::wrapping_add_u64(offset, have as u64), 1)
}

// Takes octets up to the one that ends the field, or all of them.
fn step(
    m: Mend,
    kept: &mut [u8],
    state: &mut [u8],
    piece: &[u8],
    copy: &mut [u8],
    copied: usize,
    list: &mut [u8],
    listed: usize,
) -> Mended
    requires { (length kept.old ≡ kept_length) × ((length state.old ≡ state_length) × ((both (nat_le (copied + most_copied) (length copy.old)) (nat_le (listed + most_listed) (length list.old)) ≡ true)
        × ((is_over (stage_in m.replay.phase []) ≡ false) × (0 < length piece.now)))) }
    ensures { MendStepped (mending_of m kept.old state.old) piece.now
        (record { copy = record { octets = copy.old; at = copied }; list = record { octets = list.old; at = listed } }) result
        kept.new state.new copy.new list.new }
{
    let r = m.replay;
    let phase = r.phase;
    let g = gather(kept, r.got, piece);
    if !g.whole {
        return Mended {
            mend: Mend {
                replay: Replay {
                    number: r.number,
                    phase,
                    got: g.have,
                },
                offset: m.offset,
            },
            taken: g.taken,
            copied,
            listed,
        };
    }
    let tag = kept[0];
    let last = end_of(g.have);
    let a = answer(phase, tag, &kept[HEAD..last], state);
    let then = a.phase;
    let e = put_part(&kept[..last], m, a.refusal, copy, copied, list, listed);
    Mended {
        mend: Mend {
            replay: Replay {
                number: std::num::wrapping_add_u64(r.number, 1),
                phase: then,
                got: 0,
            },
            offset: further(m.offset, g.have),
        },
        taken: g.taken,
        copied: e.copied,
        listed: e.listed,
    }
}

// Takes octets of a piece while there is room for what a field has written, all of them where there is enough; copies each field that they end, or lists it.
pub fn feed(
    m: Mend,
    kept: &mut [u8],
    state: &mut [u8],
    piece: &[u8],
    copy: &mut [u8],
    copied: usize,
    list: &mut [u8],
    listed: usize,
) -> Mended
    ensures { MendFed (mending_of m kept.old state.old) piece.now
        (record { copy = record { octets = copy.old; at = copied }; list = record { octets = list.old; at = listed } }) result
        kept.new state.new copy.new list.new }
{
    if kept.len() != KEPT {
        return Mended {
            mend: m,
            taken: 0,
            copied,
            listed,
        };
    }
    if state.len() != layout::LENGTH {
        return Mended {
            mend: m,
            taken: 0,
            copied,
            listed,
        };
    }
    // Stays: each turn goes on by as many octets as the field takes, which no range counts; and a loop of its own beside `replaying::feed`, which says why.
    let mut held = m;
    let mut end = copied;
    let mut left = listed;
    let mut i: usize = 0;
    while i < piece.len() {
        if !have_room(copy.len(), end, list.len(), left) {
            break;
        }
        let r = held.replay;
        let phase = r.phase;
        if is_over(phase) {
            i = piece.len();
            break;
        }
        let f = step(held, kept, state, &piece[i..], copy, end, list, left);
        held = f.mend;
        end = f.copied;
        left = f.listed;
        i += f.taken;
    }
    Mended {
        mend: held,
        taken: i,
        copied: end,
        listed: left,
    }
}

// The end of the input: the line of a field that is torn, where one has begun. Answers the place behind it, and none where the list has no room for a line.
pub fn finish(m: Mend, list: &mut [u8], listed: usize) -> Option<usize>
    ensures place { result ≡ mend_place_ended (mending_of m [] []) (record { octets = list.old; at = listed }) }
    ensures octets { list.new ≡ (mend_ended_by (mending_of m [] []) (record { octets = list.old; at = listed })).octets }
{
    if !has_room(list.len(), listed, MOST) {
        return None;
    }
    let r = m.replay;
    if is_over(r.phase) || r.got == 0 {
        return Some(listed);
    }
    Some(put_left(list, listed, r.number, m.offset, INPUT_ENDS))
}
