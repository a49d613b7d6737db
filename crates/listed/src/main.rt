// Runs the listed inputs of document 01 through the readers and the receiver, and says of each what came out, in the document's words.
// The inputs marked * there are proved as one table in specs/Listed; this is the same table at work.
#![tactic(auto)]

use gcc::cause::Meaning;
use nch::Notification;
use receiver::{Answer, Receiver, Setup};
use std::io;
use std::io::Stdout;
use steps::events;
use text::Line;

// A row's first words, then a refusal.
fn refused(row: &[u8], number: u8) -> Line {
    Line::new().word(row).number(b": refusal ", number as u64)
}

// ## NT/N Rest Octets

// Whether both releases are there with nothing in them, and nothing beside them.
fn are_empty(m: Notification) -> bool {
    let six = m.release6;
    let seven = m.release7;
    if m.hasNln || m.callcount != 0 || !six.hasRelease || !seven.hasRelease {
        return false;
    }
    if six.hasCount || six.reducedcount != 0 || six.randomcount != 0 {
        return false;
    }
    !seven.hasUplink && !seven.hasAmr && !seven.hasSms && seven.markcount == 0
}

fn show_parts(line: Line, m: Notification, used: u64) -> Line {
    if are_empty(m) {
        return line
            .number(b": both releases present and empty, ", used)
            .word(b" used");
    }
    if m.callcount != 0 || m.release6.hasRelease || m.release7.hasRelease {
        return line.number(b": other parts, ", used).word(b" used");
    }
    if m.hasNln {
        return line
            .number(b": NLN ", m.nln as u64)
            .number(b", ", used)
            .word(b" used");
    }
    line.number(b": no parts, ", used).word(b" bits used")
}

fn show_octets(row: &[u8], octets: &[u8]) -> Line {
    let r = nch::read(octets);
    if r.refusal.number != 0 {
        return refused(row, r.refusal.number);
    }
    let m = r.record;
    show_parts(Line::new().word(row), m, r.used as u64)
}

fn nch_rows(out: &mut Stdout) -> io::Result<()> {
    show_octets(b"twenty 2B", &[0x2b; 20]).end(out)?;
    show_octets(b"twenty 00", &[0x00; 20]).end(out)?;
    let mut octets = [0x2bu8; 20];
    octets[0] = 0xcb;
    show_octets(b"CB, nineteen 2B", &octets).end(out)?;
    show_octets(b"twenty FF", &[0xff; 20]).end(out)?;
    show_octets(b"19 octets", &[0x2b; 19]).end(out)?;
    Ok(())
}

// ## The receiver

// Set up at a tick for one call: reference 1,234,567, VGCS; no group key is held.
fn ready(tick: u32) -> Receiver {
    let setup = Setup {
        tick,
        t3206: 5000,
        t3208: 5000,
        t3210: 5000,
    };
    setup.start(&[2469135u32], &[0u32]).unwrap()
}

fn show_step(row: &[u8], last: u32, now: u32) -> Line {
    let a = events::tick(ready(last), now);
    if a.refusal.number != 0 {
        return refused(row, a.refusal.number);
    }
    let step = clock::elapsed(now, last);
    Line::new().word(row).number(b": step ", step as u64)
}

fn show_expiries(line: Line, expired: usize) -> Line {
    match expired {
        0 => line,
        1 => line.word(b"one expiry, then "),
        _ => line.number(b"", expired as u64).word(b" expiries, then "),
    }
}

// What the only entry of a message is told, behind the expiries.
fn show_told(before: Line, a: Answer) -> Line {
    let line = show_expiries(before, a.expired);
    if a.count != 1 {
        return line.number(b"", a.count as u64).word(b" entries");
    }
    let entries = a.entries;
    let t = entries[0];
    line.number(b"", t.number as u64)
}

// The first half, at 1,000, is that call with priority 3, cipher key number 5 and channel 120345, and a random entry of Segment Id 0 without
// VSTK_RAND. The second is its reduced reference, and a random entry of Segment Id 1 with VSTK_RAND ABCDEF012. Padding, 2B hex, is +.
fn show_halves(row: &[u8], second: u32) -> Line {
    let a = events::nch(
        ready(0),
        1000,
        b"\x40\x96\xb4\x3c\xd6\x24\x06\x8a\x48+++++++++++",
    );
    let r = a.receiver;
    let b = events::nch(
        r,
        second,
        b"\x08\x12\xd6\x87\xbd\x5e\x6f\x78\x09+++++++++++",
    );
    show_told(Line::new().word(row).word(b": "), b)
}

fn clock_rows(out: &mut Stdout) -> io::Result<()> {
    show_step(b"last tick 4,294,967,290, new 10", 4294967290, 10).end(out)?;
    show_step(b"step 2,147,483,648", 0, 2147483648).end(out)?;
    show_halves(b"T3206 5,000, first half at 1,000, second at 5,999", 5999).end(out)?;
    show_halves(b"the same at 6,000", 6000).end(out)?;
    Ok(())
}

// ## GCC elements

fn show_specific(line: Line, n: u8) -> Line {
    let line = line.number(b": ", n as u64);
    if n == 16 {
        return line.word(b", normal clearing");
    }
    line.word(b", another of table 9.4")
}

fn show_cause(row: &[u8], octets: &[u8]) -> Line {
    let r = gcc::cause::read(octets);
    if r.refusal != 0 {
        return refused(row, r.refusal);
    }
    let line = Line::new().word(row);
    let m = r.meaning;
    match m {
        Meaning::Specific(n) => show_specific(line, n),
        Meaning::Unspecific => line.word(b": unspecific"),
        Meaning::Nothing => line.word(b": nothing"),
    }
}

fn show_digits(row: &[u8], octets: &[u8]) -> Line {
    let r = gcc::digits::read(octets);
    if r.refusal != 0 {
        return refused(row, r.refusal);
    }
    let digits = r.digits;
    Line::new().word(row).word(b": ").word(&digits)
}

fn gcc_rows(out: &mut Stdout) -> io::Result<()> {
    show_cause(b"cause 90", &[0x90]).end(out)?;
    show_cause(b"cause 10 91", &[0x10, 0x91]).end(out)?;
    show_cause(b"cause 10", &[0x10]).end(out)?;
    show_digits(b"00 00 00 23 A3", &[0x00, 0x00, 0x00, 0x23, 0xa3]).end(out)?;
    show_digits(b"E8 D4 A5 10 00", &[0xe8, 0xd4, 0xa5, 0x10, 0x00]).end(out)?;
    show_digits(b"E8 D4 A5 0F FF", &[0xe8, 0xd4, 0xa5, 0x0f, 0xff]).end(out)?;
    Ok(())
}

fn main(rt: HostRuntime) -> io::Result<()> {
    let mut out = rt.stdout();
    nch_rows(&mut out)?;
    clock_rows(&mut out)?;
    gcc_rows(&mut out)
}
