// Feeds events to the receiver, an event to a line, and shows what each is answered and what each of its entries is told.
//
// A line is a word and numbers: setup TICK T3206 T3208 KEY.., nch TICK HEX, facch TICK HEX, joined TICK KEY, reselected TICK, handed_over TICK,
// reconfigured TICK, tick TICK. Its answer is a line: refusal, halves that ran out, halves dropped, entries. A refused setup leaves the receiver.
#![tactic(auto)]

ghost use Rattle.std.specs.Prelude.{◌≤◌, length};

use call::{Call, Description};
use receiver::{Answer, Common, Move, Receiver, Record, Setup, Started, Told};
use std::io;
use std::io::Stdout;
use steps::events;
use text::Line;

// The most octets of input that are read.
const INPUT: usize = 65536;

fn show_description(line: Line, d: Description) -> Line {
    let line = line.hex(b" channel ", d.channel as u64, 6);
    if !d.hopping {
        return line;
    }
    if d.shortlist {
        return line.hex(b" list ", d.frequencies, 16);
    }
    line.number(b" allocation ", d.length as u64)
        .hex(b" ", d.frequencies, 2 * d.length as usize)
}

fn show_call(line: Line, c: Call) -> Line {
    let line = line
        .number(b" call ", c.reference as u64)
        .number(b" ", c.vgcs as u64)
        .number(b" ", c.acknowledged as u64)
        .number(b" ", c.priority as u64)
        .number(b" ", c.cipher as u64);
    if c.hasDescription {
        let d = c.description;
        return show_description(line, d);
    }
    line.word(b" channel -")
}

// What a part says that may be absent, with a dash for none.
fn show_if(line: Line, there: bool, word: &[u8], n: u64) -> Line {
    let line = line.word(word);
    if there {
        return line.number(b" ", n);
    }
    line.word(b" -")
}

fn show_amr(line: Line, c: Common) -> Line {
    let line = line.word(b" amr");
    if !c.hasAmr {
        return line.word(b" -");
    }
    let line = show_if(line, c.hasFullrate, b"", c.fullrate as u64);
    show_if(line, c.hasHalfrate, b"", c.halfrate as u64)
}

fn show_common(before: Line, c: Common) -> Line {
    let mut line = show_if(before, c.hasCount, b" count", c.cellcount as u64);
    if c.hasCount {
        line = line.number(b" ", c.b22 as u64);
    }
    line = show_if(line, c.hasUplink, b" uplink", c.uplink as u64);
    line = show_amr(line, c);
    line = show_if(line, c.hasSms, b" sms", c.confidential as u64);
    if c.hasSms {
        line = line.number(b" ", c.private as u64);
    }
    line
}

fn show_record(before: Line, r: Record) -> Line {
    let c = r.call;
    let mut line = show_call(before, c);
    line = show_if(line, r.hasSegment, b" segment", r.segment as u64);
    if r.hasRandom {
        line = line.hex(b" rand ", r.rand, 9);
    } else {
        line = line.word(b" rand -");
    }
    line = line.number(b" emergency ", r.emergency as u64);
    let common = r.common;
    show_common(line, common)
}

// An entry: its key, its number, and the record where it has one.
fn show_told(t: Told) -> Line {
    let mut line = Line::new()
        .number(b"  ", t.key)
        .number(b" ", t.number as u64);
    if (1..=3).contains(&t.number) {
        line = show_record(line, t.record);
    }
    line
}

fn show_head(
    refusal: u8,
    expired: usize,
    dropped: usize,
    count: usize,
    out: &mut Stdout,
) -> io::Result<()> {
    Line::new()
        .number(b"", refusal as u64)
        .number(b" ", expired as u64)
        .number(b" ", dropped as u64)
        .number(b" ", count as u64)
        .end(out)?;
    Ok(())
}

// Shows an answer, and hands on the receiver in it.
fn answered(a: Answer, out: &mut Stdout) -> io::Result<Receiver> {
    show_head(a.refusal.number, a.expired, a.dropped, a.count, out)?;
    for t in a.entries.iter().take(a.count) {
        show_told(*t).end(out)?;
    }
    Ok(a.receiver)
}

// The number whose decimal digits stand from a place on, less whole times 2^32. A character that is no digit counts as 16.
fn number(line: &[u8], from: usize) -> u32
    requires { from ≤ length line.now }
{
    let mut n: u64 = 0;
    for c in &line[from..] {
        if *c == b' ' {
            break;
        }
        n = (n * 10 + u64::from(text::digit(*c).unwrap_or(16))) % 4294967296;
    }
    n as u32
}

// The place behind the next space, or the line's end.
fn after(line: &[u8], from: usize) -> usize
    requires { from ≤ length line.now }
    ensures { result ≤ length line.now }
{
    match line[from..].iter().position(|c| *c == b' ') {
        Some(i) => from + i + 1,
        None => line.len(),
    }
}

// A setup with the keys from a place on, of which 64 are kept at most; no group keys are held.
fn started(setup: Setup, line: &[u8], from: usize) -> Result<Receiver, Started>
    requires { from ≤ length line.now }
{
    let mut keys = [0u32; 64];
    let mut n: usize = 0;
    let mut at = from;
    for key in keys.iter_mut() {
        if line.len() <= at {
            break;
        }
        *key = number(line, at);
        at = after(line, at);
        n += 1;
    }
    let sets = [0u32; 64];
    setup.start(&keys[..n], &sets[..n])
}

// What the setup of a line comes to.
fn set_up(line: &[u8]) -> Result<Receiver, Started> {
    let first = after(line, 0);
    let tick = number(line, first);
    let second = after(line, first);
    let t3206 = number(line, second);
    let third = after(line, second);
    let t3208 = number(line, third);
    let keys = after(line, third);
    let setup = Setup {
        tick,
        t3206,
        t3208,
        t3210: Setup::T3210,
    };
    started(setup, line, keys)
}

// An event that is no setup, by the first letter of its word, and where that is r by the third. Of a message 64 octets are kept at most.
fn event(r: Receiver, line: &[u8], out: &mut Stdout) -> io::Result<Receiver> {
    if line.len() < 3 {
        return Ok(r);
    }
    let at = after(line, 0);
    let tick = number(line, at);
    let rest = after(line, at);
    let mut octets = [0u8; 64];
    let a = match line[0] {
        b'n' => {
            let n = text::read_hex(&line[rest..], &mut octets);
            events::nch(r, tick, &octets[..n])
        }
        b'f' => {
            let n = text::read_hex(&line[rest..], &mut octets);
            events::facch(r, tick, &octets[..n])
        }
        b'j' => events::joined(r, tick, number(line, rest)),
        b'h' => events::moved(r, tick, Move::Handover),
        b't' => events::tick(r, tick),
        _ if line[2] == b's' => events::moved(r, tick, Move::Reselection),
        _ => events::moved(r, tick, Move::Reconfiguration),
    };
    answered(a, out)
}

// Before the first setup the receiver has no key.
fn no_receiver() -> Receiver {
    Setup::ready(0).start(&[], &[]).unwrap()
}

fn show_lines(text: &[u8], out: &mut Stdout) -> io::Result<()> {
    let mut r = no_receiver();
    let mut rest = text;
    while let Some(end) = rest.iter().position(|c| *c == b'\n') {
        let line = &rest[..end];
        if 3 <= line.len() && line[0] == b's' {
            match set_up(line) {
                Ok(fresh) => {
                    r = fresh;
                    show_head(0, 0, 0, 0, out)?;
                }
                Err(refused) => show_head(refused.refusal.number, 0, 0, 0, out)?,
            }
        } else {
            r = event(r, line, out)?;
        }
        rest = &rest[end + 1..];
    }
    Ok(())
}

fn main(rt: HostRuntime) -> io::Result<()> {
    let mut text = [0u8; INPUT];
    let n = text::read_full(&mut rt.stdin(), &mut text)?;
    show_lines(&text[..n], &mut rt.stdout())
}
