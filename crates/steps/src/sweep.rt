// The one sweep over all places that drops what ran out and what an event takes.
ghost use Rattle.std.specs.Prelude.{◌≡◌};
ghost use Rattle.receiver.specs.Model.{takes, spares, ran_out_of, swept_slots, expired_of, dropped_of, with_slots};
ghost use Rattle.steps.specs.Inner.{fate_of};

use receiver::{PLACES, Receiver, Rule, Slot, channels, meeting, store};

// Whether a rule takes halves of a channel.
fn takes(rule: Rule, ch: usize) -> bool
    ensures { result ≡ takes rule ch }
{
    channels::flag_of(ch, rule.nch, rule.facch, rule.pch)
}

// Whether a rule leaves the half at a place.
#[tactic(auto, unfolding(receiver::specs::Model::spares))]
pub fn spared(rule: Rule, i: usize) -> bool
    ensures { result ≡ spares rule i }
{
    !takes(rule, channels::side_of(i)) || channels::index_in(i) == rule.but
}

#[tactic(auto, unfolding(receiver::specs::Model::ran_out_of))]
fn ran_out(now: u32, timer: u32, s: Slot) -> bool
    ensures { result ≡ ran_out_of now timer s }
{
    s.half != 0 && timer <= clock::elapsed(now, s.since)
}

// What becomes of a place: it stays as it is, its half ran out, or the rule takes its half.
#[derive(Drop)]
enum Fate {
    Stays,
    RanOut,
    Taken,
}

#[tactic(auto, unfolding(crate::specs::Inner::fate_of, receiver::specs::Model::ran_out_of, receiver::specs::Model::taken_of))]
fn fate_of(now: u32, timer: u32, rule: Rule, i: usize, s: Slot) -> Fate
    ensures { result ≡ fate_of now timer rule i s }
{
    if ran_out(now, timer, s) {
        return Fate::RanOut;
    }
    if s.half == 0 || spared(rule, i) {
        Fate::Stays
    } else {
        Fate::Taken
    }
}

#[derive(Drop)]
pub struct Swept {
    pub receiver: Receiver,
    pub expired: usize,
    pub dropped: usize,
}

// One sweep: what ran out goes first and is counted apart, then what the rule takes.
pub fn sweep(mut r: Receiver, now: u32, rule: Rule) -> Swept
    ensures { (result.receiver ≡ with_slots r (swept_slots r now rule))
        × ((result.expired ≡ expired_of r now r.slots) × (result.dropped ≡ dropped_of r now rule)) }
{
    let e = meeting::empty_slot();
    let mut expired: usize = 0;
    let mut dropped: usize = 0;
    for i in 0..PLACES {
        let timer = store::timer_at(r.t3206, r.t3208, r.t3210, i);
        match fate_of(now, timer, rule, i, r.slots[i]) {
            Fate::Stays => {}
            Fate::RanOut => {
                r.slots[i] = e;
                expired += 1;
            }
            Fate::Taken => {
                r.slots[i] = e;
                dropped += 1;
            }
        }
    }
    Swept {
        receiver: r,
        expired,
        dropped,
    }
}
