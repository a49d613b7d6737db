// The uplink investigation of a network without talker priority (44.018, 3.3.1.2.1.1; document 02, §9): may our driver talk?
#![tactic(auto)]

ghost use Rattle.std.specs.Prelude.{◌≡◌, ◌-◌};
ghost use Rattle.uplink.specs.Uplink.{passed, end_of, asked_for, told_of, asking, after_signal, step_of, is_timer, started_of};

// How long a "free" counts, in ms.
pub const FREE: u32 = 480;

// What is known of the uplink, and of the request that waits for it.
#[derive(Clone, Copy)]
pub struct Uplink {
    // Of the last accepted event.
    pub tick: u32,
    pub t3128: u32,
    // The ms for which the last "free" still counts: 0 where the uplink is not free.
    pub free: u32,
    // The ms that the request which waits still has: 0 where none waits.
    pub wait: u32,
}

// What an event is: a message says that the uplink is free, or that it is busy; the driver wants to talk; time passes.
#[derive(Clone, Copy)]
pub enum Signal {
    Free,
    Busy,
    Request,
    Tick,
}

// What became of the request that waited.
#[derive(Clone, Copy)]
pub enum End {
    Nothing,
    Granted,
    Rejected,
}

// What a request is told when it is made.
#[derive(Clone, Copy)]
pub enum Told {
    Nothing,
    Granted,
    Waiting,
    AlreadyWaiting,
}

// What an event is answered. A refusal is its number alone, and the uplink as it stood.
#[derive(Clone, Copy)]
pub struct Answer {
    pub refusal: u8,
    pub end: End,
    pub told: Told,
    pub uplink: Uplink,
}

// The numbers of a setup.
#[derive(Clone, Copy)]
pub struct Setup {
    pub tick: u32,
    pub t3128: u32,
}

// What a setup is answered.
#[derive(Clone, Copy)]
pub struct Started {
    pub refusal: u8,
    pub uplink: Uplink,
}

// What is left of a time after a step. It stands still at 0, so that no sum of steps wraps.
fn left(ms: u32, step: u32) -> u32
    ensures { result ≡ ms - step }
{
    if step < ms { ms - step } else { 0 }
}

// The uplink when the time up to a tick has passed, and nothing else has happened yet.
fn passed(u: Uplink, tick: u32) -> Uplink
    ensures { result ≡ passed u tick }
{
    let step = clock::elapsed(tick, u.tick);
    Uplink {
        tick,
        t3128: u.t3128,
        free: left(u.free, step),
        wait: left(u.wait, step),
    }
}

// What becomes of the request that waited, by what it had left before the time passed and has after: its end comes before the event's own effect.
fn end_of(before: u32, after: u32, signal: Signal) -> End
    ensures { result ≡ end_of before after signal }
{
    if before == 0 {
        return End::Nothing;
    }
    if after == 0 {
        return End::Rejected;
    }
    match signal {
        Signal::Free => End::Granted,
        Signal::Busy => End::Nothing,
        Signal::Request => End::Nothing,
        Signal::Tick => End::Nothing,
    }
}

// What a request is told.
fn asked_for(free: u32, wait: u32) -> Told
    ensures { result ≡ asked_for free wait }
{
    if wait != 0 {
        return Told::AlreadyWaiting;
    }
    if free != 0 {
        return Told::Granted;
    }
    Told::Waiting
}

// What the event tells a new request: nothing where it is none.
fn told_of(free: u32, wait: u32, signal: Signal) -> Told
    ensures { result ≡ told_of free wait signal }
{
    match signal {
        Signal::Free => Told::Nothing,
        Signal::Busy => Told::Nothing,
        Signal::Request => asked_for(free, wait),
        Signal::Tick => Told::Nothing,
    }
}

// The uplink after a request: T3128 starts where it is not free and none waits.
fn asking(u: Uplink) -> Uplink
    ensures { result ≡ asking u }
{
    if u.wait != 0 {
        return u;
    }
    if u.free != 0 {
        return u;
    }
    Uplink {
        tick: u.tick,
        t3128: u.t3128,
        free: u.free,
        wait: u.t3128,
    }
}

// The uplink after the event's own effect.
fn after(u: Uplink, signal: Signal) -> Uplink
    ensures { result ≡ after_signal u signal }
{
    match signal {
        Signal::Free => Uplink {
            tick: u.tick,
            t3128: u.t3128,
            free: FREE,
            wait: 0,
        },
        Signal::Busy => Uplink {
            tick: u.tick,
            t3128: u.t3128,
            free: 0,
            wait: u.wait,
        },
        Signal::Request => asking(u),
        Signal::Tick => u,
    }
}

impl Uplink {
    // One event: refused with 9, or first the time passes, then the event takes effect.
    pub fn happens(self, tick: u32, signal: Signal) -> Answer
        ensures { result ≡ step_of self (record { tick = tick; signal = signal }) }
    {
        if clock::is_late(tick, self.tick) {
            return Answer {
                refusal: 9,
                end: End::Nothing,
                told: Told::Nothing,
                uplink: self,
            };
        }
        let p = passed(self, tick);
        Answer {
            refusal: 0,
            end: end_of(self.wait, p.wait, signal),
            told: told_of(p.free, p.wait, signal),
            uplink: after(p, signal),
        }
    }
}

impl Setup {
    pub const LONGEST: u32 = 60000;

    // An uplink that is not free and that nobody waits for, or refusal 10.
    pub fn start(self) -> Started
        ensures { result ≡ started_of self }
    {
        if !is_timer(self.t3128) {
            return Started {
                refusal: 10,
                uplink: Uplink {
                    tick: 0,
                    t3128: 0,
                    free: 0,
                    wait: 0,
                },
            };
        }
        Started {
            refusal: 0,
            uplink: Uplink {
                tick: self.tick,
                t3128: self.t3128,
                free: 0,
                wait: 0,
            },
        }
    }
}

fn is_timer(t: u32) -> bool
    ensures { result ≡ is_timer t }
{
    if t < 1 {
        return false;
    }
    t <= Setup::LONGEST
}
