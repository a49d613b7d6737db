// One call behind what is there.
ghost use Rattle.std.specs.Prelude.{◌≡◌};
ghost use Rattle.pen.specs.Words.{call_head, put_frequencies, put_description, put_call};

use crate::Words;
use call::{Call, Description};

// The Group Call Reference's 36 bits and the flag behind them, as one number.
fn head(c: Call) -> u64
    ensures { result ≡ call_head c }
{
    let call = c.reference as u64 * 4 + c.vgcs as u64 * 2 + c.acknowledged as u64;
    call * 256 + c.priority as u64 * 32 + c.cipher as u64 * 2 + c.hasDescription as u64
}

// { 0 < Mobile Allocation > | 1 < Frequency Short List >}
fn put_frequencies(w: Words, d: Description) -> Words
    ensures { result ≡ put_frequencies w d }
{
    if d.shortlist {
        let list = crate::put(w, 1, 1);
        return crate::put(list, 64, d.frequencies);
    }
    // The 0 and the length octet.
    let length = crate::put(w, 9, d.length as u64);
    crate::put(length, 8 * d.length as usize, d.frequencies)
}

fn put_description(w: Words, d: Description) -> Words
    ensures { result ≡ put_description w d }
{
    let channel = crate::put(w, 25, d.channel as u64 * 2 + d.hopping as u64);
    if d.hopping {
        return put_frequencies(channel, d);
    }
    channel
}

// The bits of a call.
pub fn put(w: Words, c: Call) -> Words
    ensures { result ≡ put_call w c }
{
    let reference = crate::put(w, 37, head(c));
    if c.hasDescription {
        let d = c.description;
        return put_description(reference, d);
    }
    reference
}
