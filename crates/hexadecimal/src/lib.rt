// Bytes as pairs of characters, in either case when read and in capitals when written; digits as bytes, in two's complement, and back.
#![tactic(auto)]

ghost use Rattle.std.specs.Prelude.{◌≡◌, [], ◌+◌, ◌*◌, ◌<◌, ◌≤◌, T, length, MatchOption};
ghost use Rattle.std.proofs.lemmas.List.Edits.{sets};
ghost use Rattle.meaning.specs.Hexadecimal.{nibble, all_hex, bytes_of, capital, pair, written};
ghost use Rattle.meaning.specs.Frames.{two_bytes, byte_of, digit_of};
ghost use Rattle.hexadecimal.specs.Pairs.{Pairs};

// What a character stands for, if it is hexadecimal. A byte is read as it is: std's `to_digit` takes a `char`, which would be no plainer.
#[tactic(auto, using(crate::proofs::Characters::decimal, crate::proofs::Characters::upper, crate::proofs::Characters::lower, crate::proofs::Characters::other))]
fn nibble(c: u8) -> Option<u8>
    ensures { MatchOption result (nibble c ≡ 16) (λ x. (x ≡ nibble c) × (x < 16)) }
{
    match c {
        b'0'..=b'9' => Some(c - b'0'),
        b'A'..=b'F' => Some(c - b'A' + 10),
        b'a'..=b'f' => Some(c - b'a' + 10),
        _ => None,
    }
}

// The character of a number below 16.
pub fn capital(x: u8) -> u8
    requires { x < 16 }
    ensures { result ≡ capital x }
{
    if x < 10 { b'0' + x } else { b'A' - 10 + x }
}

// Whether every character is hexadecimal.
pub fn all_hex(line: &[u8]) -> bool
    ensures { result ≡ all_hex line.now }
{
    line.iter().all(|c| nibble(*c).is_some())
}

// The byte of a pair of characters.
pub fn byte(high: u8, low: u8) -> u8
    requires { (nibble high < 16) × (nibble low < 16) }
    ensures { result ≡ 16 * nibble high + nibble low }
{
    16 * nibble(high).unwrap() + nibble(low).unwrap()
}

// The bytes of a line's pairs, written to the front of `bytes`.
pub fn read(line: &[u8], bytes: &mut [u8])
    requires t { T (all_hex line.now) }
    requires line_len_bound { length line.now ≤ 2 * length bytes.old }
    ensures { bytes.new ≡ sets bytes.old 0 (bytes_of line.now) }
{
    for (k, pair) in line.chunks_exact(2).enumerate() {
        bytes[k] = byte(pair[0], pair[1]);
    }
}

// The bytes of any line, written to the front of `bytes`, and how many they are. None are read where the line has an odd number of characters,
// one that is not hexadecimal, or more pairs than `bytes` has room for.
pub fn read_pairs(line: &[u8], bytes: &mut [u8]) -> usize
    ensures { Pairs line.now bytes.old result bytes.new }
{
    let count = line.len() / 2;
    if line.len() % 2 == 1 || bytes.len() < count || !all_hex(line) {
        return 0;
    }
    read(line, bytes);
    count
}

// A byte's two characters, written at an index of `out`.
pub fn put(b: u8, at: usize, out: &mut [u8])
    requires { at + 2 ≤ length out.old }
    ensures { out.new ≡ sets out.old at (pair b []) }
{
    out[at] = capital(b / 16);
    out[at + 1] = capital(b % 16);
}

// A number's two bytes, the high one first.
pub fn put_number(x: u16, at: usize, out: &mut [u8])
    requires { at + 4 ≤ length out.old }
    ensures { out.new ≡ sets out.old at (written (two_bytes x)) }
{
    let [high, low] = x.to_be_bytes();
    put(high, at, out);
    put(low, at + 2, out);
}

// A digit as a byte, in two's complement.
pub fn byte_of(d: i8) -> u8
    ensures { result ≡ byte_of d }
{
    d.cast_unsigned()
}

// The digit of a byte.
pub fn digit_of(b: u8) -> i8
    ensures { result ≡ digit_of b }
{
    b.cast_signed()
}
