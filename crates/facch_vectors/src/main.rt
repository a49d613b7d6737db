// Reads NOTIFICATION/FACCH messages in hexadecimal, a message to a line, and shows of each its record and as many octets written again, or its refusal.
#![tactic(auto)]

ghost use Rattle.std.specs.Prelude.{◌≤◌, length};

use call::{Call, Description};
use facch::{Notification, Page, Release6, Release7};
use std::io;
use std::io::Stdout;
use text::Line;

// The most octets of input that are read.
const INPUT: usize = 65536;

// The octets of a line that are kept: a message has no more.
const ROOM: usize = 64;

fn show_description(line: Line, d: Description) -> Line {
    let line = line.hex(b" description ", d.channel as u64, 6);
    if !d.hopping {
        return line;
    }
    if d.shortlist {
        return line.hex(b" list ", d.frequencies, 16);
    }
    line.number(b" allocation ", d.length as u64)
        .hex(b" ", d.frequencies, 2 * d.length as usize)
}

fn show_call(line: Line, c: Call) -> Line {
    let line = line
        .number(b" reference ", c.reference as u64)
        .number(b" service ", c.vgcs as u64)
        .number(b" ack ", c.acknowledged as u64)
        .number(b" priority ", c.priority as u64)
        .number(b" cipher ", c.cipher as u64);
    if c.hasDescription {
        let d = c.description;
        return show_description(line, d);
    }
    line.word(b" description -")
}

// The octets of the identity as they stand in the message.
fn show_identity(before: Line, p: Page) -> Line {
    let line = before
        .number(b" identity ", p.identityLength as u64)
        .hex(b" ", p.identityFirst as u64, 2);
    if p.identityLength < 2 {
        return line;
    }
    line.hex(b"", p.identityRest, 2 * (p.identityLength as usize - 1))
}

fn show_page(before: Line, p: Page) -> Line {
    let line = show_identity(before, p).number(b" channel ", p.channelFirst as u64);
    if p.hasPriority {
        return line.number(b" priority ", p.priority as u64);
    }
    line
}

fn show_six(line: Line, r: Release6) -> Line {
    let mut line = line.word(b" six");
    if r.hasCount {
        line = line
            .number(b" count ", r.cellcount as u64)
            .number(b" b22 ", r.b22 as u64);
    }
    if r.hasRandom {
        line = line.hex(b" rand ", r.rand, 9);
    }
    line
}

fn show_seven(line: Line, r: Release7) -> Line {
    let line = line
        .word(b" seven")
        .number(b" uplink ", r.uplink as u64)
        .number(b" emergency ", r.emergency as u64);
    if r.hasCause {
        return line.number(b" cause ", r.cause as u64);
    }
    line
}

fn show_notified(before: Line, m: Notification) -> Line {
    if m.paging {
        let p = m.page;
        return show_page(before, p);
    }
    let c = m.call;
    show_call(before, c)
}

fn show_record(before: Line, m: Notification) -> Line {
    let mut line = show_notified(before, m);
    let six = m.release6;
    if six.hasRelease {
        line = show_six(line, six);
    }
    let seven = m.release7;
    if seven.hasRelease {
        line = show_seven(line, seven);
    }
    line
}

fn show_octets(before: Line, octets: &[u8]) -> Line {
    let mut line = before;
    for octet in octets {
        line = line.hex(b"", u64::from(*octet), 2);
    }
    line
}

// What the writer makes of the record again in n octets.
fn show_written(line: Line, m: Notification, n: usize) -> Line
    requires { n ≤ 64 }
{
    let mut back = [0u8; ROOM];
    let w = facch_write::write(m, &mut back[..n]);
    if w.refusal != 0 {
        return line.number(b" not written ", w.refusal as u64);
    }
    show_octets(line.word(b" written "), &back[..n])
}

fn show_message(octets: &[u8]) -> Line
    requires { length octets.now ≤ 64 }
{
    let r = facch::read(octets);
    if r.refusal.number != 0 {
        return Line::new().number(b"refused ", r.refusal.number as u64);
    }
    let m = r.record;
    show_written(
        show_record(Line::new().number(b"used ", r.used as u64), m),
        m,
        octets.len(),
    )
}

// The octets of a line, of which 64 are kept at most.
fn show_line(digits: &[u8], out: &mut Stdout) -> io::Result<()> {
    let mut octets = [0u8; ROOM];
    let n = text::read_hex(digits, &mut octets);
    show_message(&octets[..n]).end(out)?;
    Ok(())
}

fn show_lines(text: &[u8], out: &mut Stdout) -> io::Result<()> {
    let mut rest = text;
    while let Some(end) = rest.iter().position(|c| *c == b'\n') {
        show_line(&rest[..end], out)?;
        rest = &rest[end + 1..];
    }
    Ok(())
}

fn main(rt: HostRuntime) -> io::Result<()> {
    let mut text = [0u8; INPUT];
    let n = text::read_full(&mut rt.stdin(), &mut text)?;
    show_lines(&text[..n], &mut rt.stdout())
}
