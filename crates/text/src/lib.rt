// Lines of text: words, decimal numbers and hexadecimal digits put behind one another and handed to a file; and octets and hexadecimal digits read.
//
// A line is passed by value, and what puts something behind it answers the longer line.
#![tactic(auto)]

ghost use Rattle.std.specs.Prelude.{◌≡◌, ◌≤◌, [], ◌∷◌, IfOk, length};
ghost use Rattle.std.proofs.Math.Seq.{paste};
ghost use Rattle.text.specs.Lines.{empty, added, place_behind, with_behind};
ghost use Rattle.text.specs.Digits.{decimal, hexadecimal, digit_value, octets_of, pairs};

mod number;

use number::{find_decimal, find_hex};
use std::io;
use std::io::{Read, Write};

// How many octets have room in a line.
pub const ROOM: usize = 512;

// The octets of a line, and the place up to which they are filled; none where something did not fit, and nothing more is then put.
//
// Stays: octets of a fixed size, not a `Vec` or a `String`: those can run out of memory, and a program would then end where it went on.
#[derive(Drop)]
pub struct Line {
    pub octets: [u8; ROOM],
    pub at: Option<usize>,
}

// Puts a word over as many octets, in its order.
fn copy(place: &mut [u8], word: &[u8])
    requires { length place.old ≡ length word.now }
    ensures { place.new ≡ word.now }
{
    place.copy_from_slice(word);
}

// Puts a word from a place on, all of it or nothing where it does not fit, and answers the place behind it.
pub fn put(octets: &mut [u8], at: usize, word: &[u8]) -> Option<usize>
    ensures place { result ≡ place_behind word.now (record { octets = octets.old; at = at }) }
    ensures octets { octets.new ≡ (added word.now (record { octets = octets.old; at = at })).octets }
{
    if octets.len() < at || octets.len() - at < word.len() {
        return None;
    }
    let end = at + word.len();
    copy(&mut octets[at..end], word);
    Some(end)
}

// Puts a number from a place on in decimal digits, likewise.
pub fn put_decimal(octets: &mut [u8], at: usize, n: u64) -> Option<usize>
    ensures place { result ≡ place_behind (decimal n) (record { octets = octets.old; at = at }) }
    ensures octets { octets.new ≡ (added (decimal n) (record { octets = octets.old; at = at })).octets }
{
    let mut digits = [0u8; 20];
    let k = find_decimal(n, &mut digits);
    put(octets, at, &digits[..k])
}

impl Line {
    // An empty line.
    pub fn new() -> Line
        ensures { result ≡ empty }
    {
        Line {
            octets: [0; ROOM],
            at: Some(0),
        }
    }

    // Puts a word behind the line, which is full where the word has no room.
    pub fn word(self, word: &[u8]) -> Line
        ensures { result ≡ with_behind word.now self }
    {
        let mut octets = self.octets;
        let at = match self.at {
            Some(at) => put(&mut octets, at, word),
            None => None,
        };
        Line { octets, at }
    }

    // Puts a word, and a number behind it in decimal digits.
    pub fn number(self, word: &[u8], n: u64) -> Line
        ensures { result ≡ with_behind (decimal n) (with_behind word.now self) }
    {
        let mut digits = [0u8; 20];
        let k = find_decimal(n, &mut digits);
        self.word(word).word(&digits[..k])
    }

    // Puts a word, and a number behind it in hexadecimal digits: at least as many as asked for, and at most sixteen.
    pub fn hex(self, word: &[u8], n: u64, least: usize) -> Line
        ensures { result ≡ with_behind (hexadecimal least n) (with_behind word.now self) }
    {
        let mut digits = [0u8; 16];
        let k = find_hex(n, least, &mut digits);
        self.word(word).word(&digits[..k])
    }

    // The octets that are filled, and of a line that is full a question mark.
    fn filled(&self) -> &[u8] {
        match self.at {
            Some(at) => self.octets.get(..at).unwrap_or(b"?\n"),
            None => b"?\n",
        }
    }

    // Puts a line end and hands the line to a file. Answers what was handed on, or why the file did not take it; then nothing is left of the line, and the file may have a part of it.
    pub fn end<W: Write>(self, file: &mut W) -> io::Result<Line>
        ensures { IfOk result (λ line. line ≡ with_behind (10 ∷ []) self) }
    {
        let line = self.word(b"\n");
        file.write_all(line.filled())?;
        Ok(line)
    }
}

// The value of a hexadecimal digit, and none of any other character.
pub fn digit(c: u8) -> Option<u8>
    ensures { result ≡ digit_value c }
{
    match c {
        b'0'..=b'9' => Some(c - b'0'),
        b'a'..=b'f' => Some(c - b'a' + 10),
        _ => None,
    }
}

// Reads octets, two digits to each and as many as there is room for, and answers how many there are. A character that is no digit counts as 0.
pub fn read_hex(digits: &[u8], octets: &mut [u8]) -> usize
    ensures count { result ≡ pairs digits.now octets.old }
    ensures octets { octets.new ≡ paste octets.old 0 (octets_of digits.now) (pairs digits.now octets.old) }
{
    let n = octets.len().min(digits.len() / 2);
    for (i, octet) in octets[..n].iter_mut().enumerate() {
        *octet = digit(digits[2 * i]).unwrap_or(0) * 16 + digit(digits[2 * i + 1]).unwrap_or(0);
    }
    n
}

// Reads until there is no more room or the input ends, and answers how many octets were read, or why the input could not be read: the octets are then as many as they were, and the first of them
// may be what was read before.
pub fn read_full<R: Read>(input: &mut R, octets: &mut [u8]) -> io::Result<usize>
    ensures within { IfOk result (λ n. n ≤ length octets.new) }
    ensures kept { length octets.new ≡ length octets.old }
{
    // Stays: each turn goes on by as many octets as the input gave, which no range counts; the library's `read_exact` takes an input that ends early for an error.
    let mut n: usize = 0;
    while n < octets.len() {
        let more = input.read(&mut octets[n..])?;
        if more == 0 {
            break;
        }
        n += more;
    }
    Ok(n)
}
