// Twenty octets as words in an array, with zeros behind them: for a reader whose every place moves.
ghost use Rattle.std.specs.Prelude.{◌≡◌};
ghost use Rattle.words.specs.Array.{words_of, window_of};

use crate::window::{eight, four, funnel};

pub const LENGTH: usize = 5;

// The words of twenty octets; of others none.
pub fn load(s: &[u8]) -> [u64; LENGTH]
    ensures { result ≡ words_of s.now }
{
    if s.len() != 20 {
        return [0, 0, 0, 0, 0];
    }
    [eight(s, 0), eight(s, 8), four(s, 16) * 4294967296, 0, 0]
}

// The 64 bits from a place on; bits behind the octets are 0. The place is in the first four words, so that none is behind the array.
pub fn at(w: &[u64; LENGTH], place: usize) -> u64
    ensures { result ≡ window_of w.now place }
{
    let i = place / 64 % 4;
    funnel(w[i], w[i + 1], place % 64)
}
