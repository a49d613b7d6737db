// Replaying: pieces of a capture go in, in whatever sizes they come, and the text of each field comes out.
ghost use Rattle.std.specs.Prelude.{◌≡◌, suc, ◌+◌, ◌<◌, ◌≤◌, min, false, [], length, nat_le, slice_index};
ghost use Rattle.layout.specs.Layout.{state_length};
ghost use Rattle.text.specs.Lines.{added, place_behind};
ghost use Rattle.capture.specs.Replay.{is_over, header};
ghost use Rattle.capture.specs.Machine.{kept_length, stage_in, machine_of, most_text, Replayed, ended_by, place_ended, begun};
ghost use Rattle.capture.specs.Inner.{Stepped};

use crate::answers::answer;
use crate::fields::gather;
use crate::lines::{MOST, put_answer, put_field};
use crate::{Fed, HEAD, KEPT, Phase, Replay};

// The input ends inside a field.
pub(crate) const INPUT_ENDS: u32 = 18;

// What is held before the first octet.
pub fn begin() -> Replay
    ensures { result ≡ begun }
{
    Replay {
        number: 1,
        phase: Phase::Before,
        got: 0,
    }
}

// Puts the header from a place on, all of it or nothing where it does not fit, and answers the place behind it.
pub fn put_header(out: &mut [u8], at: usize) -> Option<usize>
    ensures place { result ≡ place_behind header (record { octets = out.old; at = at }) }
    ensures octets { out.new ≡ (added header (record { octets = out.old; at = at })).octets }
{
    text::put(out, at, b"field tag refusal dropped\n")
}

// Whether so many octets have room from a place on for the text of a field.
pub fn has_room(size: usize, at: usize) -> bool
    ensures { result ≡ nat_le (at + most_text) size }
{
    at <= size && MOST <= size - at
}

pub(crate) fn is_over(phase: Phase) -> bool
    ensures { result ≡ is_over (stage_in phase []) }
{
    matches!(phase, Phase::Over)
}

// Where the octets kept of a field end that has one octet more than so many.
pub(crate) fn end_of(have: usize) -> usize
    ensures { result ≡ min (suc have) kept_length }
{
    have.min(KEPT - 1) + 1
}

// Takes octets up to the one that ends the field, or all of them.
fn step(
    r: Replay,
    kept: &mut [u8],
    state: &mut [u8],
    piece: &[u8],
    out: &mut [u8],
    at: usize,
) -> Fed
    requires { (length kept.old ≡ kept_length) × ((length state.old ≡ state_length) × ((at + most_text ≤ length out.old) × ((is_over (stage_in r.phase []) ≡ false) × (0 < length piece.now)))) }
    ensures { Stepped (machine_of r kept.old state.old) piece.now (record { octets = out.old; at = at }) result
        kept.new state.new out.new }
{
    let phase = r.phase;
    let g = gather(kept, r.got, piece);
    if !g.whole {
        return Fed {
            replay: Replay {
                number: r.number,
                phase,
                got: g.have,
            },
            taken: g.taken,
            at,
        };
    }
    let tag = kept[0];
    let last = end_of(g.have);
    let a = answer(phase, tag, &kept[HEAD..last], state);
    let then = a.phase;
    let end = put_answer(out, at, r.number, tag, a.refusal, state);
    Fed {
        replay: Replay {
            number: std::num::wrapping_add_u64(r.number, 1),
            phase: then,
            got: 0,
        },
        taken: g.taken,
        at: end,
    }
}

// Takes octets of a piece while there is room for the text of a field, all of them where there is enough, and puts the text of each field that they end.
pub fn feed(
    r: Replay,
    kept: &mut [u8],
    state: &mut [u8],
    piece: &[u8],
    out: &mut [u8],
    at: usize,
) -> Fed
    ensures { Replayed (machine_of r kept.old state.old) piece.now (record { octets = out.old; at = at }) result
        kept.new state.new out.new }
{
    if kept.len() != KEPT {
        return Fed {
            replay: r,
            taken: 0,
            at,
        };
    }
    if state.len() != layout::LENGTH {
        return Fed {
            replay: r,
            taken: 0,
            at,
        };
    }
    // Stays: each turn goes on by as many octets as the field takes, which no range counts.
    // Stays: a loop of its own beside `mending::feed`, which lends two lines, where this lends one. Theorems of specs/Promises speak of `Replayed` and `MendFed`, which are of the two signatures, and a loop
    // for both would be given room, step and what is lent by closures or a trait, with a law for each: no plainer.
    let mut held = r;
    let mut end = at;
    let mut i: usize = 0;
    while i < piece.len() {
        if !has_room(out.len(), end) {
            break;
        }
        let phase = held.phase;
        if is_over(phase) {
            i = piece.len();
            break;
        }
        let f = step(held, kept, state, &piece[i..], out, end);
        held = f.replay;
        end = f.at;
        i += f.taken;
    }
    Fed {
        replay: held,
        taken: i,
        at: end,
    }
}

// The tag of a field that has begun, and 0 where nothing is kept.
fn tag_of(kept: &[u8]) -> u8
    ensures { result ≡ slice_index kept.now 0 }
{
    kept.first().copied().unwrap_or(0)
}

// The end of the input: the line of a field that is torn, where one has begun. Answers the place behind it, and none where there is no room for the text of a field.
pub fn finish(r: Replay, kept: &[u8], out: &mut [u8], at: usize) -> Option<usize>
    ensures place { result ≡ place_ended (machine_of r kept.now []) (record { octets = out.old; at = at }) }
    ensures octets { out.new ≡ (ended_by (machine_of r kept.now []) (record { octets = out.old; at = at })).octets }
{
    if !has_room(out.len(), at) {
        return None;
    }
    if is_over(r.phase) || r.got == 0 {
        return Some(at);
    }
    Some(put_field(out, at, r.number, tag_of(kept), INPUT_ENDS, 0))
}
