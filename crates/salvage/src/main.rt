// Salvages a damaged file of frames: it is read from standard input to its end, the lines that are kept are written to standard output in capitals, and what is said of dropped and altered lines is
// written to standard error, in the file's order. Everything goes in blocks, whatever the size of the file and the length of its lines.
#![tactic(auto)]

ghost use Rattle.std.specs.Prelude.{◌≤◌, length, IfOk};
ghost use Rattle.salvage.specs.Pours.{turns, Pours, Judges, Ready};

use blocks::{BLOCK, Fault, Stream, Taker};
use sift::Room;
use std::io;
use width::Width;

// How often is read at most: with blocks of 65,536 characters, as often as line numbers of 64 bits last. No run uses it up, and a proved loop has to end.
const TURNS: u64 = 0xFFFF_FFFF_FFFF;

// The line that has not ended, how much of it is kept, and its number; what a line is read into, and what is written and said.
#[derive(Drop)]
struct Salvage {
    line: [u8; sift::LEAST_KEPT],
    kept: usize,
    number: u64,
    digits: [i8; Width::MOST_PLACES],
    out: [u8; BLOCK],
    report: [u8; BLOCK],
}

// Writes what is kept and what is said.
fn written(rt: &HostRuntime, out: &[u8], report: &[u8]) -> Result<(), Fault> {
    rt.write_all(out).map_err(|error| Fault {
        stream: Stream::Output,
        error,
    })?;
    rt.stderr().write_all(report).map_err(|error| Fault {
        stream: Stream::Error,
        error,
    })
}

impl Taker for Salvage {
    ghost most = { turns };

    ghost ready = { Ready };

    ghost takes = { Pours };

    ghost ends = { Judges };

    // Judges the lines that end in a block. What stands in `out` and `report` goes out each time that there is no room for a whole line or a whole remark more.
    fn pour(&mut self, rt: &HostRuntime, piece: &[u8]) -> Result<(), Fault> {
        // A step goes on by as much as it takes.
        let mut at = 0;
        while at < piece.len() {
            let mut room = Room {
                digits: &mut self.digits,
                out: &mut self.out,
                report: &mut self.report,
            };
            let fed = room.feed(&piece[at..], &mut self.line, self.kept, self.number);
            at += fed.used;
            self.kept = fed.kept;
            self.number = fed.number;
            written(rt, &self.out[..fed.filled], &self.report[..fed.said])?;
        }
        Ok(())
    }

    // Judges the last line.
    fn end(&mut self, rt: &HostRuntime) -> Result<(), Fault> {
        let mut room = Room {
            digits: &mut self.digits,
            out: &mut self.out,
            report: &mut self.report,
        };
        let last = room.finish(&self.line, self.kept, self.number);
        written(rt, &self.out[..last.filled], &self.report[..last.said])
    }
}

// Lines are counted from 1.
fn main(rt: HostRuntime) {
    let mut salvage = Salvage {
        line: [0; sift::LEAST_KEPT],
        kept: 0,
        number: 1,
        digits: [0; Width::MOST_PLACES],
        out: [0; BLOCK],
        report: [0; BLOCK],
    };
    blocks::run(&rt, "salvage", TURNS, &mut salvage);
}
