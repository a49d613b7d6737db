// Document 01's clock: a counter of milliseconds that wraps, the step between two of its ticks, and the step that is refused.
#![tactic(auto)]

ghost use Rattle.std.specs.Prelude.{◌≡◌};
ghost use Rattle.clock.specs.Clock.{wrap_sub, late};

// The milliseconds from one tick to another, on a counter that wraps.
pub fn elapsed(now: u32, last: u32) -> u32
    ensures { result ≡ wrap_sub now last }
{
    now.wrapping_sub(last)
}

// A step of 2^31 or more is refused.
pub const LATE_STEP: u32 = 2147483648;

// Whether a tick is refused.
#[tactic(auto, unfolding(crate::specs::Clock::late))]
pub fn is_late(now: u32, last: u32) -> bool
    ensures { result ≡ late now last }
{
    LATE_STEP <= elapsed(now, last)
}
