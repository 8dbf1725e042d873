// A line read to lent digits: what it states, or its fields and its digits. Nothing is written before all is known to fit.
ghost use Rattle.std.specs.Prelude.{◌≡◌, true, ◌++◌, ◌≤◌, length, drop, pos, replicate};
ghost use Rattle.meaning.specs.Digits.{weight as weightOf, top as top_of};
ghost use Rattle.meaning.specs.Hexadecimal.{bytes_of};
ghost use Rattle.meaning.specs.Frames.{rising, number_at, entries_in, places_in, digits_in, Read};
ghost use Rattle.layout.specs.Wholes.{PlainFrame, SparseFrame};
ghost use Rattle.frames.specs.Told.{said, Stating};

use crate::kinds::Kind;
use crate::{entries, fields, kinds};
use digits::Count;
use refusals::Reason;
use width::Width;

// What a line says: a refused line its number, and a frame the weight, the top and the places of its string.
#[derive(Clone, Copy)]
pub enum Reading {
    Stated(u8),
    String { weight: u16, top: u16, places: u16 },
}

// The byte at which each field stands.
const WEIGHT_AT: usize = 1;

const TOP_AT: usize = 3;

const COUNT_AT: usize = 5;

// The bytes before the digits of version 1.
const PLAIN_HEAD: usize = 5;

// ---- version 1
// The weight and the top of the digits, each read where it stands: by its place, and nothing is kept.
fn tally(line: &[u8]) -> Count
    requires { PlainFrame line.now }
    ensures { (result.weight ≡ weightOf (digits_in (bytes_of line.now))) × (result.top ≡ top_of (digits_in (bytes_of line.now))) }
{
    let mut count = Count { weight: 0, top: 0 };
    for i in 0..line.len() / 2 - PLAIN_HEAD {
        if fields::digit_at(line, PLAIN_HEAD + i) != 0 {
            count = Count {
                weight: count.weight + 1,
                top: i + 1,
            };
        }
    }
    count
}

// The digits, one behind the other: by the place, which is that of both.
fn copy(line: &[u8], digits: &mut [i8])
    requires { (PlainFrame line.now) × (places_in (bytes_of line.now) ≤ length digits.old) }
    ensures { digits.new ≡ digits_in (bytes_of line.now) ++ drop (places_in (bytes_of line.now)) digits.old }
{
    for i in 0..line.len() / 2 - PLAIN_HEAD {
        digits[i] = fields::digit_at(line, PLAIN_HEAD + i);
    }
}

fn plain(line: &[u8], digits: &mut [i8]) -> Result<Reading, Reason>
    requires { PlainFrame line.now }
    ensures read { Read line.now digits.old (said result) digits.new }
    ensures stated { Stating result }
{
    let n = line.len() / 2 - PLAIN_HEAD;
    if Width::MOST_PLACES < n {
        return Err(Reason::LongString);
    }
    let sum = tally(line);
    let weight = fields::number_at(line, WEIGHT_AT);
    let top = fields::number_at(line, TOP_AT);
    if usize::from(weight) != sum.weight || usize::from(top) != sum.top {
        return Err(Reason::UnfitFrame);
    }
    if digits.len() < n {
        return Err(Reason::FewPlaces);
    }
    copy(line, digits);
    Ok(Reading::String {
        weight,
        top,
        places: n as u16,
    })
}

// ---- version 2
// Zeros, from one place that is not 0 to the next: what is 0 stands. So this is no fill, for which a compiler calls `memset`: a board that reads and does not recode need
// not have that.
fn clear(digits: &mut [i8])
    ensures { digits.new ≡ replicate (length digits.old) (pos 0) }
{
    let mut at = 0;
    while let Some(next) = digits[at..].iter().position(|digit| *digit != 0) {
        digits[at + next] = 0;
        at += next + 1;
    }
}

// The digits of the entries, and 0 at every other place.
fn spread(line: &[u8], places: u16, digits: &mut [i8])
    requires sparse_frame { (SparseFrame line.now) × (places ≡ number_at (bytes_of line.now) 5) }
    requires line_value { (rising 0 places (entries_in (bytes_of line.now)) ≡ true) × (places ≤ length digits.old) }
    ensures { digits.new ≡ digits_in (bytes_of line.now) ++ drop (places_in (bytes_of line.now)) digits.old }
{
    clear(&mut digits[..usize::from(places)]);
    for e in 0..entries::count(line) {
        let (place, digit) = entries::entry(line, e);
        digits[usize::from(place)] = digit;
    }
}

fn sparse(line: &[u8], digits: &mut [i8]) -> Result<Reading, Reason>
    requires { SparseFrame line.now }
    ensures read { Read line.now digits.old (said result) digits.new }
    ensures stated { Stating result }
{
    let places = fields::number_at(line, COUNT_AT);
    if Width::MOST_PLACES < usize::from(places) {
        return Err(Reason::LongString);
    }
    let weight = fields::number_at(line, WEIGHT_AT);
    let top = fields::number_at(line, TOP_AT);
    let high = entries::ordered(line, places).ok_or(Reason::UnfitFrame)?;
    if usize::from(weight) != entries::count(line) || top != high {
        return Err(Reason::UnfitFrame);
    }
    if digits.len() < usize::from(places) {
        return Err(Reason::FewPlaces);
    }
    spread(line, places, digits);
    Ok(Reading::String {
        weight,
        top,
        places,
    })
}

// ---- the call
// Reads a line of either version to lent digits.
pub fn read(line: &[u8], digits: &mut [i8]) -> Result<Reading, Reason>
    ensures read { Read line.now digits.old (said result) digits.new }
    ensures stated { Stating result }
{
    match kinds::kind_of(line).ok_or(Reason::Malformed)? {
        Kind::Stated(number) => Ok(Reading::Stated(number)),
        Kind::Plain => plain(line, digits),
        Kind::Sparse => sparse(line, digits),
    }
}
