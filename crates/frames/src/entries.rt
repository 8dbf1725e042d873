// The entries of a version 2 line: each of them, and whether they are in order.
ghost use Rattle.std.specs.Prelude.{◌≡◌, ◌+◌, ◌*◌, ◌<◌, length, get_or};
ghost use Rattle.meaning.specs.Hexadecimal.{bytes_of};
ghost use Rattle.meaning.specs.Frames.{digit_of, number_at};
ghost use Rattle.layout.specs.Wholes.{SparseFrame};
ghost use Rattle.frames.specs.Orders.{Ordered};

use crate::fields;

// The byte at which the entries begin, the bytes of one, and where its digit stands.
const AT: usize = 7;

const ENTRY: usize = 3;

const DIGIT: usize = 2;

// How many entries a line has.
pub fn count(line: &[u8]) -> usize
    requires { SparseFrame line.now }
    ensures { 7 + 3 * result ≡ length (bytes_of line.now) }
{
    (line.len() / 2 - AT) / ENTRY
}

// The place and the digit of an entry.
pub fn entry(line: &[u8], e: usize) -> (u16, i8)
    requires { (SparseFrame line.now) × (7 + 3 * e + 2 < length (bytes_of line.now)) }
    ensures place { result.0 ≡ number_at (bytes_of line.now) (7 + 3 * e) }
    ensures digit { result.1 ≡ digit_of (get_or (bytes_of line.now) (7 + 3 * e + 2) 0) }
{
    let at = AT + ENTRY * e;
    (
        fields::number_at(line, at),
        fields::digit_at(line, at + DIGIT),
    )
}

// How high the entries go, where they rise below `places` with no zero digit.
pub fn ordered(line: &[u8], places: u16) -> Option<u16>
    requires { SparseFrame line.now }
    ensures { Ordered line.now places result }
{
    let mut floor = 0;
    for e in 0..count(line) {
        let (place, digit) = entry(line, e);
        if place < floor || place >= places || digit == 0 {
            return None;
        }
        floor = place + 1;
    }
    Some(floor)
}
