// Runs call references that other people's software encoded, and the listed digits of E8 D4 A5 0F FF, through the readers and writers.
//
// Standard input is vectors/osmo-msc-1.13.0-call-reference.tsv, of which the last column alone is read: the octets. From them each row is
// made again, the octets as the writer puts them back; a refused row is its refusal number. So what must be written follows from the
// vectors' own columns, as tools/expected works it out: the row, or 4 where its reference is above 99,999,999.
#![tactic(auto)]

ghost use Rattle.std.specs.Prelude.{◌+◌, ◌≤◌, length};

use gcc::call_reference::Priority;
use std::io;
use std::io::Stdout;
use text::Line;

// The most octets of input that are read.
const INPUT: usize = 65536;

// The octet that two hexadecimal digits say.
fn octet_at(text: &[u8], at: usize) -> Option<u8>
    requires { at + 2 ≤ length text.now }
{
    let high = text::digit(text[at])?;
    let low = text::digit(text[at + 1])?;
    Some(high * 16 + low)
}

// The three bits of a priority, or a dash where there is none.
fn show_priority(line: Line, priority: Priority) -> Line {
    let number = gcc::call_reference::number_of(priority);
    if number == 0 {
        return line.word(b"\t-");
    }
    line.number(b"\t", u64::from(number / 2 % 8))
}

fn show_octets(line: Line, octets: [u8; 4]) -> Line {
    line.hex(b"\t", u64::from(octets[0]), 2)
        .hex(b"", u64::from(octets[1]), 2)
        .hex(b"", u64::from(octets[2]), 2)
        .hex(b"", u64::from(octets[3]), 2)
}

// The row of four octets: reference, priority, and the octets that the writer makes of the two.
fn show_row(octets: [u8; 4]) -> Line {
    let r = gcc::call_reference::read(&octets);
    if r.refusal != 0 {
        return Line::new().number(b"", u64::from(r.refusal));
    }
    let priority = r.priority;
    let line = show_priority(Line::new().number(b"", r.reference as u64), priority);
    let mut back = [0u8; 4];
    gcc::call_reference::write(r.reference, priority, &mut back);
    show_octets(line, back)
}

// The four octets of the eight hexadecimal digits from a place on.
fn octets_at(text: &[u8], at: usize) -> Option<[u8; 4]>
    requires { at + 8 ≤ length text.now }
{
    Some([
        octet_at(text, at)?,
        octet_at(text, at + 2)?,
        octet_at(text, at + 4)?,
        octet_at(text, at + 6)?,
    ])
}

// The row of the last eight characters of each line; a line that ends otherwise, as the first, has none. A line end among them is no digit, so a shorter line has none.
fn show_lines(text: &[u8], out: &mut Stdout) -> io::Result<()> {
    for (i, c) in text.iter().enumerate() {
        if *c == b'\n'
            && 8 <= i
            && let Some(octets) = octets_at(text, i - 8)
        {
            show_row(octets).end(out)?;
        }
    }
    Ok(())
}

fn main(rt: HostRuntime) -> io::Result<()> {
    let mut text = [0u8; INPUT];
    let n = text::read_full(&mut rt.stdin(), &mut text)?;
    let mut out = rt.stdout();
    show_lines(&text[..n], &mut out)?;
    let r = gcc::digits::read(&[0xe8, 0xd4, 0xa5, 0x0f, 0xff]);
    let digits = r.digits;
    Line::new().word(&digits).end(&mut out)?;
    Ok(())
}
