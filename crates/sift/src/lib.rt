// A damaged file of frames, taken in piece by piece. A line that ends is judged: kept ones are written in capitals one behind the other, and what is said of dropped and altered ones is written
// apart. Of a line that has not ended the first characters are kept.
#![tactic(auto)]

ghost use Rattle.std.specs.Prelude.{◌+◌, ◌^◌, ◌<◌, ◌≤◌, length, drop};
ghost use Rattle.sift.specs.Sifts.{least_kept, Lent, Same, Sifts, Stepped, Feeds, Ends};

use cutter::Cut;

mod lines;
mod remarks;

// What has to be kept of a line at least: one character more than a frame may have, since a longer line is dropped as well.
pub const LEAST_KEPT: usize = frames::MOST_SPARSE + 1;

// The longest line that is written, its line feed counted.
const MOST_LINE: usize = frames::MOST_SPARSE + 1;

// How many characters are written of a line, and how many are said of it.
#[derive(Clone, Copy)]
pub struct Sifted {
    pub filled: usize,
    pub said: usize,
}

// How many characters of a piece are used, how many are kept of the line that has not ended, which number it has, and how many characters are written and said of those that have.
#[derive(Clone, Copy)]
pub struct Fed {
    pub used: usize,
    pub kept: usize,
    pub number: u64,
    pub filled: usize,
    pub said: usize,
}

// Judges a line: it is written in capitals or not at all, and what is said of it is written apart.
pub fn sift(
    line: &[u8],
    number: u64,
    digits: &mut [i8],
    out: &mut [u8],
    report: &mut [u8],
) -> Sifted
    requires { Lent digits.old out.old report.old }
    ensures { Sifts number line.now out.old report.old result out.new report.new }
{
    if let Err(reason) = lines::verdict(line, digits) {
        let said = remarks::dropped(number, reason, report);
        return Sifted { filled: 0, said };
    }
    let filled = lines::keep(line, out);
    if lines::has_small(line) {
        let said = remarks::case_only(number, report);
        return Sifted { filled, said };
    }
    Sifted { filled, said: 0 }
}

// What is lent to a file: what a line is read into, and where lines and remarks are written. The line that has not ended stands apart: in the
// struct, the proof would not know it any more once its front is lent to be read. What this shares with `stream` is `cutter::next`: all that is lent, read into and
// written differs.
#[derive(Drop)]
pub struct Room<'a> {
    pub digits: &'a mut [i8],
    pub out: &'a mut [u8],
    pub report: &'a mut [u8],
}

impl Room<'_> {
    // The next line of a piece, as far as it stands there. Where it ends, it is judged.
    fn step(
        &mut self,
        piece: &[u8],
        line: &mut [u8],
        kept: usize,
        number: u64,
        filled: usize,
        said: usize,
    ) -> Fed
        requires kept_in_bounds { (kept ≤ length line.old) × (least_kept ≤ length line.old) }
        requires filled_in_bounds { (filled ≤ length self.old.out.now) × (said ≤ length self.old.report.now) }
        requires lent { Lent self.old.digits.now (drop filled self.old.out.now) (drop said self.old.report.now) }
        requires number_bound { number + 1 < 2 ^ 64 }
        ensures stepped { Stepped piece.now line.old kept self.old.out.now filled self.old.report.now said number result line.new self.new.out.now self.new.report.now }
        ensures same { Same self.old self.new }
    {
        match cutter::next(piece, line, kept) {
            Cut::GoesOn { kept } => Fed {
                used: piece.len(),
                kept,
                number,
                filled,
                said,
            },
            Cut::Ends { used, kept } => {
                let sifted = sift(
                    &line[..kept],
                    number,
                    self.digits,
                    &mut self.out[filled..],
                    &mut self.report[said..],
                );
                Fed {
                    used,
                    kept: 0,
                    number: number + 1,
                    filled: filled + sifted.filled,
                    said: said + sifted.said,
                }
            }
        }
    }

    // Takes in a piece of a file, as far as there is room for a whole line and a whole remark more. The line that it goes on with has the number told.
    pub fn feed(&mut self, piece: &[u8], line: &mut [u8], kept: usize, number: u64) -> Fed
        requires kept_in_bounds { (kept ≤ length line.old) × (least_kept ≤ length line.old) }
        requires lent { Lent self.old.digits.now self.old.out.now self.old.report.now }
        requires piece_bound { number + length piece.now < 2 ^ 64 }
        ensures feeds { Feeds piece.now line.old kept number result line.new self.new.out.now self.new.report.now }
        ensures same { Same self.old self.new }
    {
        let room = self.out.len() - MOST_LINE;
        let space = self.report.len() - remarks::MOST;
        let mut fed = Fed {
            used: 0,
            kept,
            number,
            filled: 0,
            said: 0,
        };
        while fed.used < piece.len() && fed.filled <= room && fed.said <= space {
            let next = self.step(
                &piece[fed.used..],
                line,
                fed.kept,
                fed.number,
                fed.filled,
                fed.said,
            );
            fed = Fed {
                used: fed.used + next.used,
                ..next
            };
        }
        fed
    }

    // The end of a file: a last line without a line feed is judged if not empty.
    pub fn finish(&mut self, line: &[u8], kept: usize, number: u64) -> Sifted
        requires kept_in_bounds { (kept ≤ length line.now) × (least_kept ≤ length line.now) }
        requires lent { Lent self.old.digits.now self.old.out.now self.old.report.now }
        ensures ends { Ends number line.now kept result self.new.out.now self.new.report.now }
        ensures same { Same self.old self.new }
    {
        if kept == 0 {
            return Sifted { filled: 0, said: 0 };
        }
        sift(&line[..kept], number, self.digits, self.out, self.report)
    }
}
