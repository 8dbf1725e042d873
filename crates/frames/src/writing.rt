// A string written to a lent line: the fields, then in version 1 each digit, and in version 2 each nonzero digit with its place.
ghost use Rattle.std.specs.Prelude.{◌≡◌, ◌+◌, ◌*◌, ◌≤◌, ◌<◌, length};
ghost use Rattle.std.proofs.lemmas.List.Edits.{sets};
ghost use Rattle.meaning.specs.Digits.{most_places, nonzero, weight as weightOf, top as top_of};
ghost use Rattle.meaning.specs.Hexadecimal.{written};
ghost use Rattle.meaning.specs.Frames.{digit_bytes};
ghost use Rattle.meaning.specs.Frames.{entries_from, entry_bytes, version1, version2, line_of, Write};
ghost use Rattle.layout.specs.Wholes.{line_length};
ghost use Rattle.frames.specs.Entered.{Entered};
ghost use Rattle.frames.specs.Told.{version_of, wrote};

use crate::Version;
use refusals::Reason;
use width::Width;

// The byte that each version opens with, and the characters at which the fields stand.
const PLAIN: u8 = 0;

const SPARSE: u8 = 0xA2;

const WEIGHT_AT: usize = 2;

const TOP_AT: usize = 6;

const DIGITS_AT: usize = 10;

const COUNT_AT: usize = 10;

const ENTRIES_AT: usize = 14;

// The characters of a digit, and of an entry.
const DIGIT: usize = 2;

const ENTRY: usize = 6;

// The longest line of each version: that of a string of the most places, none of them 0.
pub const MOST_PLAIN: usize = DIGITS_AT + DIGIT * Width::MOST_PLACES;

pub const MOST_SPARSE: usize = ENTRIES_AT + ENTRY * Width::MOST_PLACES;

// The entry of one digit at an index of the line, where the digit is not 0. Gives the index after it.
fn put_entry(digit: i8, place: u16, at: usize, out: &mut [u8]) -> usize
    requires { at + 6 * nonzero digit ≤ length out.old }
    ensures { Entered digit place at out.old result out.new }
{
    if digit == 0 {
        return at;
    }
    hexadecimal::put_number(place, at, out);
    hexadecimal::put(hexadecimal::byte_of(digit), at + 4, out);
    at + ENTRY
}

// The entries of a string, lowest place first.
fn put_entries(digits: &[i8], from: usize, out: &mut [u8])
    requires { (length digits.now ≤ most_places) × (from + 6 * weightOf digits.now ≤ length out.old) }
    ensures { out.new ≡ sets out.old from (written (entry_bytes (entries_from 0 digits.now))) }
{
    let mut at = from;
    for (i, digit) in digits.iter().enumerate() {
        at = put_entry(*digit, i as u16, at, out);
    }
}

// The digits, place 0 first.
fn put_digits(digits: &[i8], at: usize, out: &mut [u8])
    requires { at + 2 * length digits.now ≤ length out.old }
    ensures { out.new ≡ sets out.old at (written (digit_bytes digits.now)) }
{
    for (i, digit) in digits.iter().enumerate() {
        hexadecimal::put(hexadecimal::byte_of(*digit), at + DIGIT * i, out);
    }
}

// The line of version 1, at the front of `out`.
fn fill_plain(weight: u16, top: u16, digits: &[i8], out: &mut [u8])
    requires weight_value { (weight ≡ weightOf digits.now) × (top ≡ top_of digits.now) }
    requires digits_in_bounds { 10 + 2 * length digits.now ≤ length out.old }
    ensures { out.new ≡ sets out.old 0 (line_of version1 digits.now) }
{
    hexadecimal::put(PLAIN, 0, out);
    hexadecimal::put_number(weight, WEIGHT_AT, out);
    hexadecimal::put_number(top, TOP_AT, out);
    put_digits(digits, DIGITS_AT, out);
}

// The line of version 2, at the front of `out`.
fn fill_sparse(weight: u16, top: u16, digits: &[i8], out: &mut [u8])
    requires weight_value { (weight ≡ weightOf digits.now) × (top ≡ top_of digits.now) }
    requires digits_len_bound { (length digits.now ≤ most_places) × (14 + 6 * weightOf digits.now ≤ length out.old) }
    ensures { out.new ≡ sets out.old 0 (line_of version2 digits.now) }
{
    hexadecimal::put(SPARSE, 0, out);
    hexadecimal::put_number(weight, WEIGHT_AT, out);
    hexadecimal::put_number(top, TOP_AT, out);
    hexadecimal::put_number(digits.len() as u16, COUNT_AT, out);
    put_entries(digits, ENTRIES_AT, out);
}

// The line of a string, at the front of `out`: for a caller that knows its weight and its top.
pub fn fill(version: Version, weight: u16, top: u16, digits: &[i8], out: &mut [u8])
    requires weight_value { (weight ≡ weightOf digits.now) × (top ≡ top_of digits.now) }
    requires digits_len_bound { (length digits.now ≤ most_places) × (line_length (version_of version) digits.now ≤ length out.old) }
    ensures { out.new ≡ sets out.old 0 (line_of (version_of version) digits.now) }
{
    match version {
        Version::Plain => fill_plain(weight, top, digits, out),
        Version::Sparse => fill_sparse(weight, top, digits, out),
    }
}

// The length of the line of a string that has this weight.
pub fn line_length(version: Version, weight: u16, digits: &[i8]) -> usize
    requires { (weight ≡ weightOf digits.now) × (length digits.now ≤ most_places) }
    ensures { result ≡ line_length (version_of version) digits.now }
{
    match version {
        Version::Plain => DIGITS_AT + DIGIT * digits.len(),
        Version::Sparse => ENTRIES_AT + ENTRY * usize::from(weight),
    }
}

// Writes a string to a lent line, and gives the line's length.
pub fn write(version: Version, digits: &[i8], out: &mut [u8]) -> Result<u16, Reason>
    ensures { Write (version_of version) digits.now out.old (wrote result) out.new }
{
    if Width::MOST_PLACES < digits.len() {
        return Err(Reason::LongString);
    }
    let weight = digits::weight(digits);
    let length = line_length(version, weight, digits);
    if out.len() < length {
        return Err(Reason::ShortLine);
    }
    fill(version, weight, digits::top(digits) as u16, digits, out);
    Ok(length as u16)
}
