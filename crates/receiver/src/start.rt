// Setting up: the numbers and the lent keys are tested, and a receiver that holds nothing is made.
ghost use Rattle.std.specs.Prelude.{◌≡◌, ◌≤◌, length};
ghost use Rattle.receiver.specs.Channels.{key_count};
ghost use Rattle.receiver.specs.Count.{is_set, sets_right};
ghost use Rattle.receiver.specs.Model.{new_receiver, is_timer, all_low, setup_right, outcome_of, started_of, ready_setup, no_setup};
ghost use Rattle.receiver.specs.Halving.{rises};
ghost use Rattle.csn1.specs.Told.{padded};

use crate::{
    Cell, LAST_KEY, NO_BIT, NO_COUNT, NO_KEY, NO_NLN, PLACES, Receiver, Setup, Started, meeting,
};

impl Setup {
    pub const KEYS: usize = 50;

    pub const LONGEST: u32 = 60000;

    pub const T3206: u32 = 10000;

    pub const T3208: u32 = 5000;

    pub const T3210: u32 = 5000;

    // The ready defaults, from a first tick on.
    pub fn ready(tick: u32) -> Self
        ensures { result ≡ ready_setup tick }
    {
        Self {
            tick,
            t3206: Self::T3206,
            t3208: Self::T3208,
            t3210: Self::T3210,
        }
    }

    // A receiver for the lent keys, each with its set of group keys, or refusal 10 and a receiver that holds nothing.
    #[tactic(auto, unfolding(crate::specs::Model::started_of, csn1::specs::Format::ground))]
    pub fn start(self, keys: &[u32], sets: &[u32]) -> Result<Receiver, Started>
        ensures { result ≡ outcome_of (started_of self keys.now sets.now) }
    {
        if !is_right(self, keys, sets) {
            return Err(Started {
                refusal: csn1::ground(10),
                receiver: made(no_setup(), [NO_KEY; Setup::KEYS], [0; Setup::KEYS], 0),
            });
        }
        Ok(made(self, placed(keys, NO_KEY), placed(sets, 0), keys.len()))
    }
}

fn no_setup() -> Setup
    ensures { result ≡ no_setup }
{
    Setup {
        tick: 0,
        t3206: 0,
        t3208: 0,
        t3210: 0,
    }
}

// A receiver whose first n key places are used.
fn made(s: Setup, keys: [u32; Setup::KEYS], sets: [u32; Setup::KEYS], n: usize) -> Receiver
    ensures { result ≡ new_receiver s keys sets n }
{
    let e = meeting::empty_slot();
    Receiver {
        slots: [e; PLACES],
        keys,
        sets,
        keycount: n,
        tick: s.tick,
        t3206: s.t3206,
        t3208: s.t3208,
        t3210: s.t3210,
        cell: Cell {
            nln: NO_NLN,
            count: NO_COUNT,
            bit: NO_BIT,
        },
    }
}

fn is_timer(t: u32) -> bool
    ensures { result ≡ is_timer t }
{
    1 <= t && t <= Setup::LONGEST
}

// Whether a setup is accepted: at most KEYS keys, the timers, a right set for each key, each key in range and above the one before it.
#[tactic(auto, unfolding(crate::specs::Model::setup_right))]
pub fn is_right(s: Setup, keys: &[u32], sets: &[u32]) -> bool
    ensures { result ≡ setup_right s keys.now sets.now }
{
    keys.len() <= Setup::KEYS
        && is_timer(s.t3206)
        && is_timer(s.t3208)
        && is_timer(s.t3210)
        && sets_right(keys, sets)
        && all_low(keys)
        && rises(keys)
}

// A set of group keys has no number 0 and none above 15.
const SETS: u32 = 65536;

fn is_set(set: u32) -> bool
    ensures { result ≡ is_set set }
{
    set < SETS && set % 2 == 0
}

// Whether there is one set for each key, each of them right.
fn sets_right(keys: &[u32], sets: &[u32]) -> bool
    ensures { result ≡ sets_right keys.now sets.now }
{
    sets.len() == keys.len() && sets.iter().all(|set| is_set(*set))
}

// Whether no key is above the highest.
fn all_low(keys: &[u32]) -> bool
    ensures { result ≡ all_low keys.now }
{
    keys.iter().all(|key| *key <= LAST_KEY)
}

// Whether each key is above the one before it.
fn rises(keys: &[u32]) -> bool
    ensures { result ≡ rises keys.now }
{
    keys.is_sorted_by(|before, key| before < key)
}

// A place for each key: the numbers as they were lent, then unused places.
fn placed(numbers: &[u32], unused: u32) -> [u32; Setup::KEYS]
    requires { length numbers.now ≤ key_count }
    ensures { result ≡ padded unused key_count numbers.now }
{
    let mut places = [unused; Setup::KEYS];
    places[..numbers.len()].copy_from_slice(numbers);
    places
}
