// The answer to a request, written to lent memory: a refusal's two characters, or the frame of a string; and a line feed.
ghost use Rattle.std.specs.Prelude.{◌≡◌, [], ◌∷◌, ◌++◌, ◌<◌, ◌≤◌, length};
ghost use Rattle.meaning.specs.Digits.{most_places, weight as weightOf, top as top_of};
ghost use Rattle.meaning.specs.Lines.{line_feed};
ghost use Rattle.meaning.specs.Hexadecimal.{written};
ghost use Rattle.meaning.specs.Frames.{line_of};
ghost use Rattle.layout.specs.Wholes.{line_length};
ghost use Rattle.refusals.specs.Coded.{coded};
ghost use Rattle.frames.specs.Told.{version_of};
ghost use Rattle.requests.specs.Writing.{Wrote};
ghost use Rattle.requests.specs.Answered.{most_answer};

use frames::Version;
use refusals::Reason;

// The longest answer: that of a string of the most places, none of them 0, with its line feed.
pub fn most(version: Version) -> usize
    ensures { result ≡ most_answer (version_of version) }
{
    match version {
        Version::Plain => frames::MOST_PLAIN + 1,
        Version::Sparse => frames::MOST_SPARSE + 1,
    }
}

// The line of an accepted recoding, and how long it is.
pub fn accepted(version: Version, weight: u16, top: u16, digits: &[i8], out: &mut [u8]) -> usize
    requires weight_value { (weight ≡ weightOf digits.now) × (top ≡ top_of digits.now) }
    requires digits_len_bound { (length digits.now ≤ most_places) × (line_length (version_of version) digits.now < length out.old) }
    ensures { Wrote (line_of (version_of version) digits.now ++ (line_feed ∷ [])) out.old result out.new }
{
    frames::fill(version, weight, top, digits, out);
    let end = frames::line_length(version, weight, digits);
    out[end] = b'\n';
    end + 1
}

// The line of a refusal, and how long it is.
pub fn refused(reason: Reason, out: &mut [u8]) -> usize
    requires { 3 ≤ length out.old }
    ensures { Wrote (written (coded reason ∷ []) ++ (line_feed ∷ [])) out.old result out.new }
{
    hexadecimal::put(reason.into(), 0, out);
    out[2] = b'\n';
    3
}
