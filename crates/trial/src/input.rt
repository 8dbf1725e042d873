// Standard input, line by line. A line may come in several blocks; of one that has not ended the first characters are kept. A read or a write that fails is told on standard
// error, and the program ends: it has no status of its own.
ghost use Rattle.std.specs.Prelude.{◌≡◌, ◌-◌, ◌^◌, ◌≤◌, length, ⊤};

use crate::answers;
use asking::{asked, print};
use blocks::{Fault, Stream, Taker};
use cutter::Cut;
use std::io;

// Of a line one character more is kept than the longest frame has: a longer line is no frame as well.
const KEPT: usize = 2 * asked::MOST + 1;

// The line that has not ended, and how much of it is kept; what a line is read into, and its answer.
#[derive(Drop)]
struct Trial {
    line: [u8; KEPT],
    kept: usize,
    frame: [u8; asked::MOST],
    out: [u8; print::MOST],
}

impl Trial {
    // A line has ended: its answer is written out.
    fn answer(&mut self, rt: &HostRuntime, kept: usize) -> Result<(), Fault>
        requires { kept ≤ length self.old.line }
        ensures { self.new.kept ≡ self.old.kept }
    {
        let count = answers::answer(&self.line[..kept], &mut self.frame, &mut self.out);
        rt.write_all(&self.out[..count]).map_err(|error| Fault {
            stream: Stream::Output,
            error,
        })
    }
}

impl Taker for Trial {
    ghost most = { 2 ^ 64 - 1 };

    ghost ready = { λ _ s. s.kept ≤ length s.line };

    ghost takes = { λ _ _ _. ⊤ };

    ghost ends = { λ _ _. ⊤ };

    fn pour(&mut self, rt: &HostRuntime, piece: &[u8]) -> Result<(), Fault> {
        // A step goes on by as much as it takes.
        let mut at = 0;
        while at < piece.len() {
            match cutter::next(&piece[at..], &mut self.line, self.kept) {
                Cut::GoesOn { kept } => {
                    self.kept = kept;
                    return Ok(());
                }
                Cut::Ends { used, kept } => {
                    at += used;
                    self.kept = 0;
                    self.answer(rt, kept)?;
                }
            }
        }
        Ok(())
    }

    // A last line without a line feed counts if not empty.
    fn end(&mut self, rt: &HostRuntime) -> Result<(), Fault> {
        if self.kept == 0 {
            return Ok(());
        }
        self.answer(rt, self.kept)
    }
}

// Nothing is counted along the input, so it may have as many blocks as can be counted.
pub fn run(rt: &HostRuntime) {
    let mut trial = Trial {
        line: [0; KEPT],
        kept: 0,
        frame: [0; asked::MOST],
        out: [0; print::MOST],
    };
    blocks::run(rt, "trial", u64::MAX, &mut trial);
}
