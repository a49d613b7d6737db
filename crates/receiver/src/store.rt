// What a sweep goes by: the rule that drops nothing, and the timer of a place.
ghost use Rattle.std.specs.Prelude.{◌≡◌};
ghost use Rattle.receiver.specs.Model.{keep};
ghost use Rattle.receiver.specs.Channels.{by_number_of, side_of};

use crate::{Rule, Setup, channels};

// The rule that drops nothing.
pub fn keep() -> Rule
    ensures { result ≡ keep }
{
    Rule {
        nch: false,
        facch: false,
        pch: false,
        but: Setup::KEYS,
    }
}

// The timer of the channel of a place.
pub fn timer_at(t3206: u32, t3208: u32, t3210: u32, i: usize) -> u32
    ensures { result ≡ by_number_of (side_of i) t3206 t3208 t3210 }
{
    channels::timer_of(channels::side_of(i), t3206, t3208, t3210)
}
