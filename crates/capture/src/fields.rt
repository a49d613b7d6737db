// The octets of a field are gathered: its first ones are kept, and its length says which one is the last.
ghost use Rattle.std.specs.Prelude.{◌≡◌, suc, ◌-◌, ◌<◌, ◌≤◌, false, length, slice_set};
ghost use Rattle.arrays.specs.Runs.{stored};
ghost use Rattle.capture.specs.Capture.{head_length, length_in};
ghost use Rattle.capture.specs.Machine.{kept_length, is_last};
ghost use Rattle.capture.specs.Inner.{gathering};

use crate::{HEAD, KEPT};

// The length that stands in a field's head.
fn length_in(kept: &[u8]) -> usize
    requires { length kept.now ≡ kept_length }
    ensures { (result ≡ length_in kept.now) × (result < 65536) }
{
    kept[1] as usize * 256 + kept[2] as usize
}

// Keeps an octet of a field, where it is one of the first.
fn keep(kept: &mut [u8], got: usize, octet: u8)
    requires { length kept.old ≡ kept_length }
    ensures { kept.new ≡ slice_set kept.old got octet }
{
    if got < KEPT {
        kept[got] = octet;
    }
}

// Whether the octet that is kept behind so many ends the field.
fn is_last(kept: &[u8], have: usize) -> bool
    requires { length kept.now ≡ kept_length }
    ensures { (result ≡ is_last kept.now have) × (result ≡ false → have < 65538) }
{
    HEAD - 1 <= have && HEAD - 1 + length_in(kept) <= have
}

// How many octets were taken, whether the last of them ends the field, and how many the field has then, without that one.
//
// Stays: a flag, since no value goes with it: both numbers say something of a field that goes on too.
#[derive(Drop)]
pub struct Gathered {
    pub taken: usize,
    pub whole: bool,
    pub have: usize,
}

// How many octets there are from a place to the last one, which there is at least.
fn octets_to(last: usize, got: usize) -> usize
    requires { last < 65538 }
    ensures { result ≡ suc (last - got) }
{
    last.saturating_sub(got) + 1
}

// Keeps the octets of a piece, those of them that are among the first of the field.
fn copy(kept: &mut [u8], got: usize, piece: &[u8])
    requires { length kept.old ≡ kept_length }
    ensures { kept.new ≡ stored kept.old got piece.now }
{
    if got < KEPT {
        let n = piece.len().min(KEPT - got);
        kept[got..got + n].copy_from_slice(&piece[..n]);
    }
}

// Gathers octets of a field whose head is there: how many are left to its last one is known, and they are copied at a stroke.
fn gather_rest(kept: &mut [u8], got: usize, piece: &[u8]) -> Gathered
    requires { (length kept.old ≡ kept_length) × (head_length ≤ got) }
    ensures { record { kept = kept.new; taken = result.taken; whole = result.whole; have = result.have } ≡ gathering kept.old got piece.now }
{
    let n = octets_to(HEAD - 1 + length_in(kept), got);
    if piece.len() < n {
        copy(kept, got, piece);
        return Gathered {
            taken: piece.len(),
            whole: false,
            have: got + piece.len(),
        };
    }
    copy(kept, got, &piece[..n]);
    Gathered {
        taken: n,
        whole: true,
        have: got + (n - 1),
    }
}

// Gathers the octets of a piece up to the one that ends the field, or all of them.
pub(crate) fn gather(kept: &mut [u8], got: usize, piece: &[u8]) -> Gathered
    requires { length kept.old ≡ kept_length }
    ensures { record { kept = kept.new; taken = result.taken; whole = result.whole; have = result.have } ≡ gathering kept.old got piece.now }
{
    let mut have = got;
    for (i, octet) in piece.iter().enumerate() {
        if HEAD <= have {
            let g = gather_rest(kept, have, &piece[i..]);
            return Gathered {
                taken: i + g.taken,
                whole: g.whole,
                have: g.have,
            };
        }
        keep(kept, have, *octet);
        if is_last(kept, have) {
            return Gathered {
                taken: i + 1,
                whole: true,
                have,
            };
        }
        have += 1;
    }
    Gathered {
        taken: piece.len(),
        whole: false,
        have,
    }
}
