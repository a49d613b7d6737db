// Mends a capture: standard input is a capture, the fields that replay accepts go to standard output, and a list of those left out to standard error (document 02, §12).
#![tactic(auto)]

use capture::{KEPT, Mend, mending};
use std::io;
use std::io::{Read, Stderr, Stdin, Stdout, Write};

// The octets of input that are read at a time.
const PIECE: usize = 4096;

// The octets of the copy that are held before they are written.
const COPY: usize = 65536;

// The octets of the list that are held before they are written.
const LIST: usize = 4096;

// Where what is copied goes, and where what is listed.
#[derive(Drop)]
struct Files {
    copy: Stdout,
    list: Stderr,
}

// Writes octets up to a place.
fn hand<W: Write>(file: &mut W, octets: &[u8], at: usize) -> io::Result<()> {
    match octets.get(..at) {
        Some(first) => file.write_all(first),
        None => Ok(()),
    }
}

// What is held between two reads: where the run stands, the octets that are kept of the present field, the lent state, and what is copied and listed and not written yet, up to two places.
//
// Stays: octets of a fixed size and their places, not a `Vec`: that can run out of memory, and the program would then end where it went on; and `capture::mending::feed` puts both into octets that it is
// lent.
#[derive(Drop)]
struct Held {
    mend: Mend,
    kept: [u8; KEPT],
    state: [u8; layout::LENGTH],
    copy: [u8; COPY],
    copied: usize,
    list: [u8; LIST],
    listed: usize,
}

impl Held {
    // Nothing came yet.
    fn begin() -> Held {
        Held {
            mend: mending::begin(),
            kept: [0; KEPT],
            state: [0; layout::LENGTH],
            copy: [0; COPY],
            copied: 0,
            list: [0; LIST],
            listed: 0,
        }
    }

    // Writes copy and list.
    fn write(&mut self, files: &mut Files) -> io::Result<()> {
        hand(&mut files.copy, &self.copy, self.copied)?;
        hand(&mut files.list, &self.list, self.listed)?;
        self.copied = 0;
        self.listed = 0;
        Ok(())
    }

    // Writes copy and list where one of them has no room for another field.
    fn make_room(&mut self, files: &mut Files) -> io::Result<()> {
        if mending::have_room(COPY, self.copied, LIST, self.listed) {
            return Ok(());
        }
        self.write(files)
    }

    // Mends a piece, and answers whether all of it was taken: octets that nothing is taken of end the run; with the room that was made there are none.
    fn take(&mut self, files: &mut Files, piece: &[u8]) -> io::Result<bool> {
        let mut rest = piece;
        while !rest.is_empty() {
            self.make_room(files)?;
            let f = mending::feed(
                self.mend,
                &mut self.kept,
                &mut self.state,
                rest,
                &mut self.copy,
                self.copied,
                &mut self.list,
                self.listed,
            );
            if f.taken == 0 {
                return Ok(false);
            }
            self.mend = f.mend;
            self.copied = f.copied;
            self.listed = f.listed;
            rest = &rest[f.taken..];
        }
        Ok(true)
    }

    // Reads once and mends what came, and answers whether there may be more: an input that has ended goes on no more.
    fn turn(&mut self, input: &mut Stdin, files: &mut Files) -> io::Result<bool> {
        let mut piece = [0u8; PIECE];
        let n = input.read(&mut piece)?;
        if n == 0 {
            return Ok(false);
        }
        self.take(files, &piece[..n])
    }

    // The end of the input, and all is written.
    fn finish(&mut self, files: &mut Files) -> io::Result<()> {
        self.write(files)?;
        match mending::finish(self.mend, &mut self.list, 0) {
            Some(end) => hand(&mut files.list, &self.list, end),
            None => Ok(()),
        }
    }
}

// A proved loop has to end, and nothing says that an input does: the turns are counted, up to a number that no run uses up.
fn main(rt: HostRuntime) -> io::Result<()> {
    let mut input = rt.stdin();
    let mut files = Files {
        copy: rt.stdout(),
        list: rt.stderr(),
    };
    let mut held = Held::begin();
    for _ in 0..u64::MAX {
        if !held.turn(&mut input, &mut files)? {
            break;
        }
    }
    held.finish(&mut files)
}
