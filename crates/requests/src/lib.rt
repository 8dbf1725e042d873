// Requests: a line of hexadecimal read as a frame that asks for a recoding, and the answer to any line written, in the version told.
#![tactic(auto)]

ghost use Rattle.std.specs.Prelude.{◌≡◌, not, T};
ghost use Rattle.meaning.specs.Scalars.{highest_first};
ghost use Rattle.meaning.specs.Whole.{RecodeWhole};
ghost use Rattle.meaning.specs.Requests.{malformed};
ghost use Rattle.digits.specs.Tallies.{answered};
ghost use Rattle.frames.specs.Told.{version_of};
ghost use Rattle.requests.specs.Answered.{Lent, Filled, Answered};

use digits::Accepted;
use frames::Version;
use recoder::MARK_WORDS;
use refusals::{Reason, Refusal};
use scalar::Order;
use width::{DigitSet, Width};

mod answers;

// The most characters of a line, its line feed not counted, and the bytes that they are.
pub const MOST_CHARACTERS: usize = 144;

pub const MOST_BYTES: usize = MOST_CHARACTERS / 2;

// The longest answer, its line feed counted.
pub use answers::most as most_answer;

// Form, width and scalar length stand before the scalar's bytes.
const HEAD: usize = 3;

// The character at which the scalar length stands.
const STATED_AT: usize = 2 * (HEAD - 1);

// Whether a line is no frame. Nothing under three bytes is one, so an empty line is not either.
fn malformed(line: &[u8]) -> bool
    ensures { result ≡ malformed line.now }
{
    if line.len() < 2 * HEAD || MOST_CHARACTERS < line.len() || line.len() % 2 == 1 {
        return true;
    }
    if !hexadecimal::all_hex(line) {
        return true;
    }
    let stated = hexadecimal::byte(line[STATED_AT], line[STATED_AT + 1]);
    line.len() / 2 != HEAD + usize::from(stated)
}

// A frame's scalar: frames have whole widths, and the highest byte first.
fn recode(
    form: u8,
    width: u8,
    s: &[u8],
    digits: &mut [i8],
    marks: &mut [u64],
) -> Result<Accepted, Refusal>
    ensures { RecodeWhole form width highest_first s.now digits.old marks.old (answered result) digits.new marks.new }
{
    recoder::recode(
        form,
        DigitSet::whole(width),
        Order::HighestFirst,
        s,
        digits,
        marks,
    )
}

// The answer to a frame: its bytes are read, recoded and written out.
fn frame(
    version: Version,
    line: &[u8],
    bytes: &mut [u8],
    digits: &mut [i8],
    marks: &mut [u64],
    out: &mut [u8],
) -> usize
    requires t { T (not (malformed line.now)) }
    requires lent { Lent (version_of version) bytes.old digits.old marks.old out.old }
    ensures { Filled (version_of version) line.now bytes.old digits.old marks.old out.old result bytes.new digits.new marks.new out.new }
{
    hexadecimal::read(line, bytes);
    let count = line.len() / 2;
    match recode(bytes[0], bytes[1], &bytes[HEAD..count], digits, marks) {
        Err(refusal) => answers::refused(refusal.reason, out),
        Ok(accepted) => {
            let places = 8 * (count - HEAD) + 1;
            answers::accepted(
                version,
                accepted.weight,
                accepted.top,
                &digits[..places],
                out,
            )
        }
    }
}

// The answer to any line, written to the front of `out`, and how long it is. The other memory is worked in. Where too little is lent, nothing is written.
pub fn answer(
    version: Version,
    line: &[u8],
    bytes: &mut [u8],
    digits: &mut [i8],
    marks: &mut [u64],
    out: &mut [u8],
) -> usize
    ensures { Answered (version_of version) line.now bytes.old digits.old marks.old out.old result bytes.new digits.new marks.new out.new }
{
    if bytes.len() < MOST_BYTES
        || digits.len() < Width::MOST_PLACES
        || marks.len() < MARK_WORDS
        || out.len() < answers::most(version)
    {
        return 0;
    }
    if malformed(line) {
        return answers::refused(Reason::Malformed, out);
    }
    frame(version, line, bytes, digits, marks, out)
}
