// Reads NT/N Rest Octets in hexadecimal, a message to a line, and shows of each its record and the octets written again, or its refusal.
#![tactic(auto)]

use call::{Call, Description};
use nch::{Notification, Random, Reduced, Release6, Release7};
use std::io;
use std::io::Stdout;
use text::Line;

// The most octets of input that are read.
const INPUT: usize = 65536;

fn show_description(line: Line, d: Description) -> Line {
    let line = line.hex(b" channel ", d.channel as u64, 6);
    if !d.hopping {
        return line;
    }
    if d.shortlist {
        return line.hex(b" list ", d.frequencies, 1);
    }
    line.number(b" allocation ", d.length as u64)
        .hex(b" ", d.frequencies, 1)
}

fn show_call(line: Line, c: Call) -> Line {
    let line = line
        .number(b" call ", c.reference as u64)
        .number(b" ", c.vgcs as u64)
        .number(b" ", c.acknowledged as u64)
        .number(b" ", c.priority as u64)
        .number(b" ", c.cipher as u64);
    if c.hasDescription {
        let d = c.description;
        return show_description(line, d);
    }
    line
}

fn show_reduced(line: Line, c: Reduced) -> Line {
    line.number(b" reduced ", c.reference as u64)
        .number(b" ", c.vgcs as u64)
}

fn show_random(line: Line, c: Random) -> Line {
    let line = line.number(b" random ", c.segment as u64);
    if c.hasRandom {
        return line.hex(b" ", c.rand, 1);
    }
    line
}

fn show_reduceds(before: Line, r: Release6) -> Line {
    let mut line = before;
    for c in r.reduced.iter().take(r.reducedcount) {
        line = show_reduced(line, *c);
    }
    line
}

fn show_randoms(before: Line, r: Release6) -> Line {
    let mut line = before;
    for c in r.randoms.iter().take(r.randomcount) {
        line = show_random(line, *c);
    }
    line
}

fn show_six(before: Line, r: Release6) -> Line {
    let mut line = before.word(b" six");
    if r.hasCount {
        line = line.number(b" count ", r.cellcount as u64);
    }
    show_randoms(show_reduceds(line, r), r)
}

fn show_marks(before: Line, r: Release7) -> Line {
    let mut line = before;
    for mark in r.marks.iter().take(r.markcount) {
        line = line.number(b" mark ", u64::from(*mark));
    }
    line
}

fn show_seven(before: Line, r: Release7) -> Line {
    let mut line = show_marks(before.word(b" seven"), r);
    if r.hasUplink {
        line = line.number(b" uplink ", r.uplink as u64);
    }
    line = show_amr(line, r);
    if r.hasSms {
        line = line
            .number(b" sms ", r.confidential as u64)
            .number(b" ", r.private as u64);
    }
    line
}

fn show_amr(before: Line, r: Release7) -> Line {
    if !r.hasAmr {
        return before;
    }
    let mut line = before.word(b" amr");
    if r.hasFullrate {
        line = line.number(b" full ", r.fullrate as u64);
    }
    if r.hasHalfrate {
        line = line.number(b" half ", r.halfrate as u64);
    }
    line
}

fn show_calls(before: Line, m: Notification) -> Line {
    let mut line = before;
    for c in m.calls.iter().take(m.callcount) {
        line = show_call(line, *c);
    }
    line
}

fn show_record(before: Line, m: Notification) -> Line {
    let mut line = before;
    if m.hasNln {
        line = line.number(b" nln ", m.nln as u64);
    }
    line = show_calls(line, m);
    let six = m.release6;
    if six.hasRelease {
        line = show_six(line, six);
    }
    let seven = m.release7;
    if seven.hasRelease {
        line = show_seven(line, seven);
    }
    line
}

fn show_octets(before: Line, octets: [u8; 20]) -> Line {
    let mut line = before;
    for octet in octets {
        line = line.hex(b"", u64::from(octet), 2);
    }
    line
}

// What the writer makes of the record again.
fn show_written(line: Line, m: Notification) -> Line {
    let mut back = [0u8; 20];
    let refusal = nch_write::write(m, &mut back);
    if refusal != 0 {
        return line.number(b" not written ", refusal as u64);
    }
    show_octets(line.word(b" written "), back)
}

fn show_message(octets: &[u8]) -> Line {
    let r = nch::read(octets);
    if r.refusal.number != 0 {
        return Line::new().number(b"refused ", r.refusal.number as u64);
    }
    let m = r.record;
    show_written(
        show_record(Line::new().number(b"used ", r.used as u64), m),
        m,
    )
}

// The octets of a line, of which a message keeps 64 at most.
fn show_line(digits: &[u8], out: &mut Stdout) -> io::Result<()> {
    let mut octets = [0u8; 64];
    let n = text::read_hex(digits, &mut octets);
    show_message(&octets[..n]).end(out)?;
    Ok(())
}

fn show_lines(text: &[u8], out: &mut Stdout) -> io::Result<()> {
    let mut rest = text;
    while let Some(end) = rest.iter().position(|c| *c == b'\n') {
        show_line(&rest[..end], out)?;
        rest = &rest[end + 1..];
    }
    Ok(())
}

fn main(rt: HostRuntime) -> io::Result<()> {
    let mut text = [0u8; INPUT];
    let n = text::read_full(&mut rt.stdin(), &mut text)?;
    show_lines(&text[..n], &mut rt.stdout())
}
