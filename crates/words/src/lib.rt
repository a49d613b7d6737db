// One call of a message, taken from words with zeros behind them: no field is asked for, and whoever finishes asks once whether its place is behind the end.
#![tactic(auto)]

ghost use Rattle.std.specs.Prelude.{◌≡◌, ◌≤◌, ◌<◌};
ghost use Rattle.call.specs.Call.{frequencies, description, call_grammar};
ghost use Rattle.call.specs.Inner.{call_from_head};
ghost use Rattle.words.specs.Unasked.{taken};
ghost use Rattle.words.specs.Taking.{none_taken, taken_of, taken_at};
ghost use Rattle.words.specs.Inner.{Loaded, no_frequencies_taken, frequencies_taken, no_description_taken, description_taken};

use call::{Call, Description};
use window::Words;

pub mod array;
mod window;

// What was taken of the frequencies of a channel that hops, and the place behind them; not done where a test was not met.
#[derive(Drop)]
struct TakenFrequencies {
    done: bool,
    shortlist: bool,
    length: u8,
    frequencies: u64,
    at: usize,
}

fn no_frequencies() -> TakenFrequencies
    ensures { result ≡ no_frequencies_taken }
{
    TakenFrequencies {
        done: false,
        shortlist: false,
        length: 0,
        frequencies: 0,
        at: 0,
    }
}

// {0 <Mobile Allocation> | 1 <Frequency Short List>}
fn take_frequencies(s: &[u8], w: Words, at: usize) -> TakenFrequencies
    requires { Loaded w s.now × (at ≤ 4096) }
    ensures { result ≡ frequencies_taken (taken frequencies s.now at) }
{
    let x = window::at(s, w, at);
    let y = window::at(s, w, at + 1);
    if window::part(x, 0, 1) != 0 {
        return TakenFrequencies {
            done: true,
            shortlist: true,
            length: 0,
            frequencies: y,
            at: at + 65,
        };
    }
    let length = window::part(y, 0, 8);
    if length < 1 {
        return no_frequencies();
    }
    if 8 < length {
        return no_frequencies();
    }
    let width = 8 * length as usize;
    let z = window::at(s, w, at + 9);
    TakenFrequencies {
        done: true,
        shortlist: false,
        length: length as u8,
        frequencies: window::part(z, 0, width),
        at: at + 9 + width,
    }
}

// The same of a description.
#[derive(Drop)]
struct TakenDescription {
    done: bool,
    description: Description,
    at: usize,
}

fn no_description() -> TakenDescription
    ensures { result ≡ no_description_taken }
{
    TakenDescription {
        done: false,
        description: call::no_description(),
        at: 0,
    }
}

fn take_description(s: &[u8], w: Words, at: usize) -> TakenDescription
    requires { Loaded w s.now × (at ≤ 4000) }
    ensures { result ≡ description_taken (taken description s.now at) }
{
    let x = window::at(s, w, at);
    let channel = window::part(x, 0, 24);
    let flag = window::part(x, 24, 1);
    if channel / 4096 % 2 != flag {
        return no_description();
    }
    if flag == 0 {
        return TakenDescription {
            done: true,
            description: Description {
                channel: channel as u32,
                hopping: false,
                shortlist: false,
                length: 0,
                frequencies: 0,
            },
            at: at + 25,
        };
    }
    let f = take_frequencies(s, w, at + 25);
    if !f.done {
        return no_description();
    }
    TakenDescription {
        done: true,
        description: Description {
            channel: channel as u32,
            hopping: true,
            shortlist: f.shortlist,
            length: f.length,
            frequencies: f.frequencies,
        },
        at: f.at,
    }
}

// What was taken of a call, the place behind it, and the 64 bits from there on; not done where a test was not met.
#[derive(Drop)]
pub struct TakenCall {
    pub done: bool,
    pub call: Call,
    pub at: usize,
    pub next: u64,
}

fn no_call() -> TakenCall
    ensures { result ≡ none_taken }
{
    TakenCall {
        done: false,
        call: call::no_call(),
        at: 0,
        next: 0,
    }
}

// The call from its 36 bits and its description.
fn call_from(head: u64, described: bool, description: Description) -> Call
    requires { head < 68719476736 }
    ensures { result ≡ call_from_head head described description }
{
    Call {
        reference: (head / 512) as u32,
        vgcs: head / 256 % 2 == 1,
        acknowledged: head / 128 % 2 == 1,
        priority: (head / 16 % 8) as u8,
        cipher: (head % 16) as u8,
        hasDescription: described,
        description,
    }
}

// The 64 bits behind a call without a description are taken apart: the compiler then knows their place, as it knows the call's.
fn take_from(s: &[u8], w: Words, at: usize) -> TakenCall
    requires { Loaded w s.now × (at ≤ 192) }
    ensures { result ≡ taken_of s.now (taken call_grammar s.now at) }
{
    let x = window::at(s, w, at);
    let head = window::part(x, 0, 36);
    if 99999999 < head / 512 {
        return no_call();
    }
    if window::part(x, 36, 1) == 0 {
        return TakenCall {
            done: true,
            call: call_from(head, false, call::no_description()),
            at: at + 37,
            next: window::at(s, w, at + 37),
        };
    }
    let d = take_description(s, w, at + 37);
    if !d.done {
        return no_call();
    }
    let description = d.description;
    TakenCall {
        done: true,
        call: call_from(head, true, description),
        at: d.at,
        next: window::at(s, w, d.at),
    }
}

// The call at a place of 9 to 24 octets, whether its bits are there or not; of other octets none.
pub fn take(s: &[u8], at: usize) -> TakenCall
    ensures { result ≡ taken_at s.now at }
{
    if s.len() < 9 {
        return no_call();
    }
    if 24 < s.len() {
        return no_call();
    }
    if 192 < at {
        return no_call();
    }
    let w = window::load(s);
    take_from(s, w, at)
}
