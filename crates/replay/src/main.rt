// Replays a day's capture: standard input is a capture, and what each field is answered with goes to standard output (document 02, §5).
#![tactic(auto)]

use capture::{KEPT, Replay, replaying};
use std::io;
use std::io::{Read, Stdin, Stdout, Write};

// The octets of input that are read at a time.
const PIECE: usize = 4096;

// The octets of text that are held before they are written.
const TEXT: usize = 65536;

// What is held between two reads: where the run stands, the octets that are kept of the present field, the lent state, and the text that is not written yet, up to a place.
//
// Stays: octets of a fixed size and a place, not a `Vec`: that can run out of memory, and the program would then end where it went on; and `capture::replaying::feed` puts text into octets that it is lent.
#[derive(Drop)]
struct Held {
    replay: Replay,
    kept: [u8; KEPT],
    state: [u8; layout::LENGTH],
    text: [u8; TEXT],
    at: usize,
}

impl Held {
    // Nothing came yet, and there is no text.
    fn begin() -> Held {
        Held {
            replay: replaying::begin(),
            kept: [0; KEPT],
            state: [0; layout::LENGTH],
            text: [0; TEXT],
            at: 0,
        }
    }

    // Begins the text with the header.
    fn put_header(&mut self) {
        self.at = replaying::put_header(&mut self.text, 0).unwrap_or(0);
    }

    // Writes the text.
    fn write(&mut self, file: &mut Stdout) -> io::Result<()> {
        if let Some(text) = self.text.get(..self.at) {
            file.write_all(text)?;
        }
        self.at = 0;
        Ok(())
    }

    // Writes the text where there is no room for that of another field.
    fn make_room(&mut self, file: &mut Stdout) -> io::Result<()> {
        if replaying::has_room(TEXT, self.at) {
            return Ok(());
        }
        self.write(file)
    }

    // Replays a piece, and answers whether all of it was taken: octets that nothing is taken of end the run; with the room that was made there are none.
    fn take(&mut self, file: &mut Stdout, piece: &[u8]) -> io::Result<bool> {
        let mut rest = piece;
        while !rest.is_empty() {
            self.make_room(file)?;
            let f = replaying::feed(
                self.replay,
                &mut self.kept,
                &mut self.state,
                rest,
                &mut self.text,
                self.at,
            );
            if f.taken == 0 {
                return Ok(false);
            }
            self.replay = f.replay;
            self.at = f.at;
            rest = &rest[f.taken..];
        }
        Ok(true)
    }

    // Reads once and replays what came, and answers whether there may be more: an input that has ended goes on no more.
    fn turn(&mut self, input: &mut Stdin, file: &mut Stdout) -> io::Result<bool> {
        let mut piece = [0u8; PIECE];
        let n = input.read(&mut piece)?;
        if n == 0 {
            return Ok(false);
        }
        self.take(file, &piece[..n])
    }

    // The end of the input, and all text is written.
    fn finish(&mut self, file: &mut Stdout) -> io::Result<()> {
        self.make_room(file)?;
        let end = replaying::finish(self.replay, &self.kept, &mut self.text, self.at);
        if let Some(at) = end {
            self.at = at;
            self.write(file)?;
        }
        Ok(())
    }
}

// A proved loop has to end, and nothing says that an input does: the turns are counted, up to a number that no run uses up.
fn main(rt: HostRuntime) -> io::Result<()> {
    let mut input = rt.stdin();
    let mut file = rt.stdout();
    let mut held = Held::begin();
    held.put_header();
    for _ in 0..u64::MAX {
        if !held.turn(&mut input, &mut file)? {
            break;
        }
    }
    held.finish(&mut file)
}
