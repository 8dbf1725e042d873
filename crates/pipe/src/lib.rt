// The programs `recode` and `sparse`, which differ in the version that they write: frames are read from standard input to its end, a line each, and the answer to
// each is written to standard output. Answers go out in blocks, at the latest before the next read, so that whoever sends a frame and waits gets its answer.
#![tactic(auto)]

ghost use Rattle.pipe.specs.Pours.{turns, Pours, Answers, Ready};

use blocks::{BLOCK, Fault, Stream, Taker};
use frames::Version;
use recoder::MARK_WORDS;
use std::io;
use stream::Room;
use width::Width;

// The version that is written, the line that has not ended, and how much of it is kept; what an answer is worked in, and what is written.
#[derive(Drop)]
struct Pipe {
    version: Version,
    line: [u8; stream::LEAST_KEPT],
    kept: usize,
    bytes: [u8; requests::MOST_BYTES],
    digits: [i8; Width::MOST_PLACES],
    marks: [u64; MARK_WORDS],
    out: [u8; BLOCK],
}

fn written(rt: &HostRuntime, bytes: &[u8]) -> Result<(), Fault> {
    rt.write_all(bytes).map_err(|error| Fault {
        stream: Stream::Output,
        error,
    })
}

impl Taker for Pipe {
    ghost most = { turns };

    ghost ready = { Ready };

    ghost takes = { Pours };

    ghost ends = { Answers };

    // Answers the lines that end in a block. What stands in `out` goes out each time that there is no room for a whole answer more.
    fn pour(&mut self, rt: &HostRuntime, piece: &[u8]) -> Result<(), Fault> {
        // A step goes on by as much as it takes.
        let mut at = 0;
        while at < piece.len() {
            let mut room = Room {
                bytes: &mut self.bytes,
                digits: &mut self.digits,
                marks: &mut self.marks,
                out: &mut self.out,
            };
            let fed = room.feed(self.version, &piece[at..], &mut self.line, self.kept);
            at += fed.used;
            self.kept = fed.kept;
            written(rt, &self.out[..fed.filled])?;
        }
        Ok(())
    }

    // Answers the last line.
    fn end(&mut self, rt: &HostRuntime) -> Result<(), Fault> {
        let mut room = Room {
            bytes: &mut self.bytes,
            digits: &mut self.digits,
            marks: &mut self.marks,
            out: &mut self.out,
        };
        let last = room.finish(self.version, &self.line, self.kept);
        written(rt, &self.out[..last])
    }
}

// The whole of a program. Nothing is counted along the input, so it may have as many blocks as can be counted.
pub fn program(rt: &HostRuntime, version: Version) {
    let name = match version {
        Version::Plain => "recode",
        Version::Sparse => "sparse",
    };
    let mut pipe = Pipe {
        version,
        line: [0; stream::LEAST_KEPT],
        kept: 0,
        bytes: [0; requests::MOST_BYTES],
        digits: [0; Width::MOST_PLACES],
        marks: [0; MARK_WORDS],
        out: [0; BLOCK],
    };
    blocks::run(rt, name, u64::MAX, &mut pipe);
}
