// The uplink's state as lent octets, and setup and events on it (docs/STATE.md has the layout). Four numbers of 32 bits are all there is: they are read, and written anew.
#![tactic(auto)]

ghost use Rattle.std.specs.Prelude.{◌≡◌, true, false, eqb, length};
ghost use Rattle.arrays.specs.Runs.{stored};
ghost use Rattle.uplink.specs.Uplink.{by_signal};
ghost use Rattle.uplink_lent.specs.Inner.{four_octets, Stands};
ghost use Rattle.uplink_lent.specs.State.{uplink_length, uplink_of, octets_of, end_number, told_number, result_of, setup_code, setup_octets, code_of, octets_after};

use numbers::{number_at, put};
use uplink::{End, Setup, Signal, Told, Uplink};

mod numbers;

// The octets of a state. Another length is refusal 13.
pub const LENGTH: usize = 16;

// Where each number stands.
const TICK: usize = 0;

const T3128: usize = TICK + 4;

const FREE: usize = T3128 + 4;

const WAIT: usize = FREE + 4;

fn uplink_of(b: &[u8]) -> Uplink
    requires { length b.now ≡ uplink_length }
    ensures { (result ≡ uplink_of b.now) × Stands b.now 8 result.free }
{
    Uplink {
        tick: number_at(b, TICK),
        t3128: number_at(b, T3128),
        free: number_at(b, FREE),
        wait: number_at(b, WAIT),
    }
}

// Where time alone passes, a "free" that no longer counts stays as it is: most ticks find it so.
fn free_stays(free: u32, signal: Signal) -> bool
    ensures { result ≡ by_signal signal false false false (eqb free 0) }
{
    match signal {
        Signal::Free => false,
        Signal::Busy => false,
        Signal::Request => false,
        Signal::Tick => free == 0,
    }
}

// `stays` says that the number stands there already.
fn put_free(b: &mut [u8], free: u32, stays: bool)
    requires { (length b.old ≡ uplink_length) × (stays ≡ true → Stands b.old 8 free) }
    ensures { b.new ≡ stored b.old 8 (four_octets free) }
{
    if stays {
        return;
    }
    put(b, FREE, free);
}

// T3128 never changes: the compiler finds that its octets are written as they were read, and writes none.
fn store(b: &mut [u8], u: Uplink, stays: bool)
    requires { (length b.old ≡ uplink_length) × (stays ≡ true → Stands b.old 8 u.free) }
    ensures { b.new ≡ octets_of u }
{
    put(&mut *b, TICK, u.tick);
    put(&mut *b, T3128, u.t3128);
    put_free(&mut *b, u.free, stays);
    put(&mut *b, WAIT, u.wait);
}

fn end_number(end: End) -> u32
    ensures { result ≡ end_number end }
{
    match end {
        End::Nothing => 0,
        End::Granted => 1,
        End::Rejected => 2,
    }
}

fn told_number(told: Told) -> u32
    ensures { result ≡ told_number told }
{
    match told {
        Told::Nothing => 0,
        Told::Granted => 1,
        Told::Waiting => 3,
        Told::AlreadyWaiting => 4,
    }
}

// The refusal is in the low octet of the result, what became of the request that waited in the second, what a new one is told in the third.
fn result(refusal: u8, end: End, told: Told) -> u32
    ensures { result ≡ result_of (record { refusal = refusal; end = end; told = told }) }
{
    refusal as u32 + end_number(end) * 256 + told_number(told) * 65536
}

// 13 goes before 10; a refused setup changes no octet.
pub fn setup(b: &mut [u8], s: Setup) -> u32
    ensures { (result ≡ setup_code b.old s) × (b.new ≡ setup_octets b.old s) }
{
    if b.len() != LENGTH {
        return 13;
    }
    let started = s.start();
    if started.refusal != 0 {
        return started.refusal as u32;
    }
    let u = started.uplink;
    store(b, u, false);
    0
}

// 13 goes before 9; a refused event changes no octet.
pub fn feed(b: &mut [u8], time: u32, signal: Signal) -> u32
    ensures { (result ≡ code_of b.old (record { tick = time; signal = signal })) × (b.new ≡ octets_after b.old (record { tick = time; signal = signal })) }
{
    if b.len() != LENGTH {
        return 13;
    }
    let u = uplink_of(b);
    let answer = u.happens(time, signal);
    let end = answer.end;
    let told = answer.told;
    let code = result(answer.refusal, end, told);
    if answer.refusal != 0 {
        return code;
    }
    let v = answer.uplink;
    store(b, v, free_stays(u.free, signal));
    code
}
