// One line of a damaged file: whether it is kept, and how it is written.
ghost use Rattle.std.specs.Prelude.{◌≡◌, [], ◌∷◌, ◌++◌, ◌≤◌, ◌<◌, length};
ghost use Rattle.std.proofs.lemmas.List.Edits.{sets};
ghost use Rattle.meaning.specs.Digits.{most_places};
ghost use Rattle.meaning.specs.Lines.{line_feed};
ghost use Rattle.meaning.specs.Hexadecimal.{between, raised, in_capitals, has_small};
ghost use Rattle.meaning.specs.Salvage.{verdict};
ghost use Rattle.sift.specs.Puts.{Puts};
ghost use Rattle.sift.specs.Sifts.{judged};

use refusals::Reason;

// How far a small letter stands above its capital.
const CASE: u8 = b'a' - b'A';

// Whether a line is kept, or why it is refused. It is read into `digits`. One that is longer than any frame is malformed.
pub fn verdict(line: &[u8], digits: &mut [i8]) -> Result<(), Reason>
    requires { most_places ≤ length digits.old }
    ensures { judged result ≡ verdict line.now }
{
    if frames::MOST_SPARSE < line.len() {
        return Err(Reason::Malformed);
    }
    frames::read(line, digits)?;
    Ok(())
}

fn is_small(c: u8) -> bool
    ensures { result ≡ between 97 102 c }
{
    matches!(c, b'a'..=b'f')
}

// A character in capitals.
fn raised(c: u8) -> u8
    ensures { result ≡ raised c }
{
    if is_small(c) { c - CASE } else { c }
}

// Whether a line holds a small letter.
pub fn has_small(line: &[u8]) -> bool
    ensures { result ≡ has_small line.now }
{
    line.iter().any(|c| is_small(*c))
}

// A line in capitals, at the front of `out`.
fn put_capitals(line: &[u8], out: &mut [u8])
    requires { length line.now ≤ length out.old }
    ensures { out.new ≡ sets out.old 0 (in_capitals line.now) }
{
    for (i, c) in line.iter().enumerate() {
        out[i] = raised(*c);
    }
}

// A line in capitals, and its line feed.
pub fn keep(line: &[u8], out: &mut [u8]) -> usize
    requires { length line.now < length out.old }
    ensures { Puts (in_capitals line.now ++ (line_feed ∷ [])) 0 out.old result out.new }
{
    put_capitals(line, out);
    let end = line.len();
    out[end] = b'\n';
    end + 1
}
