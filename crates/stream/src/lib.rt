// A stream of lines, taken in piece by piece: of a line that has not ended the first characters are kept, and a line that ends is answered.
#![tactic(auto)]

ghost use Rattle.std.specs.Prelude.{◌+◌, ◌≤◌, length, drop};
ghost use Rattle.meaning.specs.Requests.{Answer};
ghost use Rattle.frames.specs.Told.{version_of};
ghost use Rattle.requests.specs.Answered.{most_answer, Lent};
ghost use Rattle.stream.specs.Streams.{least_kept, Same, Stepped, Feeds, Ends};

use cutter::Cut;
use frames::Version;
use requests::{MOST_CHARACTERS, answer, most_answer};

// What has to be kept of a line at least: one character more than a frame may have, since a longer line is malformed as well.
pub const LEAST_KEPT: usize = MOST_CHARACTERS + 1;

// How many characters of a piece are used, how many are kept of the line that has not ended, and how many characters of answers there are.
#[derive(Clone, Copy)]
pub struct Fed {
    pub used: usize,
    pub kept: usize,
    pub filled: usize,
}

// What is lent for answers: what each is worked in, and where they are written. The line that has not ended stands apart: in the
// struct, the proof would not know it any more once its front is lent to be read. What this shares with `sift` is `cutter::next`: all that is lent, worked in and
// written differs.
#[derive(Drop)]
pub struct Room<'a> {
    pub bytes: &'a mut [u8],
    pub digits: &'a mut [i8],
    pub marks: &'a mut [u64],
    pub out: &'a mut [u8],
}

impl Room<'_> {
    // The next line of a piece, as far as it stands there. Where it ends, it is answered behind the other answers.
    fn step(
        &mut self,
        version: Version,
        piece: &[u8],
        line: &mut [u8],
        kept: usize,
        filled: usize,
    ) -> Fed
        requires kept_in_bounds { (kept ≤ length line.old) × (least_kept ≤ length line.old) }
        requires filled_in_bounds { filled ≤ length self.old.out.now }
        requires lent { Lent (version_of version) self.old.bytes.now self.old.digits.now self.old.marks.now (drop filled self.old.out.now) }
        ensures stepped { Stepped (Answer (version_of version)) piece.now line.old kept self.old.out.now filled result line.new self.new.out.now }
        ensures same { Same self.old self.new }
    {
        match cutter::next(piece, line, kept) {
            Cut::GoesOn { kept } => Fed {
                used: piece.len(),
                kept,
                filled,
            },
            Cut::Ends { used, kept } => {
                let count = answer(
                    version,
                    &line[..kept],
                    self.bytes,
                    self.digits,
                    self.marks,
                    &mut self.out[filled..],
                );
                Fed {
                    used,
                    kept: 0,
                    filled: filled + count,
                }
            }
        }
    }

    // Takes in a piece of a stream, as far as there is room for a whole answer more.
    pub fn feed(&mut self, version: Version, piece: &[u8], line: &mut [u8], kept: usize) -> Fed
        requires kept_in_bounds { (kept ≤ length line.old) × (least_kept ≤ length line.old) }
        requires lent { Lent (version_of version) self.old.bytes.now self.old.digits.now self.old.marks.now self.old.out.now }
        ensures feeds { Feeds (Answer (version_of version)) (most_answer (version_of version)) piece.now line.old kept self.old.out.now result line.new self.new.out.now }
        ensures same { Same self.old self.new }
    {
        let room = self.out.len() - most_answer(version);
        let mut fed = Fed {
            used: 0,
            kept,
            filled: 0,
        };
        while fed.used < piece.len() && fed.filled <= room {
            let next = self.step(version, &piece[fed.used..], line, fed.kept, fed.filled);
            fed = Fed {
                used: fed.used + next.used,
                ..next
            };
        }
        fed
    }

    // The end of a stream: a last line without a line feed is answered if not empty.
    pub fn finish(&mut self, version: Version, line: &[u8], kept: usize) -> usize
        requires kept_in_bounds { (kept ≤ length line.now) × (least_kept ≤ length line.now) }
        requires lent { Lent (version_of version) self.old.bytes.now self.old.digits.now self.old.marks.now self.old.out.now }
        ensures ends { Ends (Answer (version_of version)) line.now kept result self.new.out.now }
        ensures same { Same self.old self.new }
    {
        if kept == 0 {
            return 0;
        }
        answer(
            version,
            &line[..kept],
            self.bytes,
            self.digits,
            self.marks,
            self.out,
        )
    }
}
