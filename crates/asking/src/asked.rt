// What a frame asks for: its bytes are taken from the front, a number's high byte first.
ghost use Rattle.std.specs.Prelude.{◌≡◌, ◌≤◌, length, IfSome};

use crate::lent;
use width::DigitSet;

// The most bytes of a scalar, and the most calls of a reader.
pub const BYTES: usize = 80;

pub const CALLS: usize = 700;

// The bytes of the longest frame: that of a line to read, with its call and count of places before the characters.
pub const MOST: usize = 3 + lent::CHARACTERS;

// How a frame gives a digit set: by a width, whose whole set it is, or by a width and a largest digit.
#[derive(Clone, Copy)]
pub enum SetForm {
    Whole,
    Between,
}

fn at_most(count: usize, most: usize) -> Option<usize>
    ensures { IfSome result (λ n. n ≤ most) }
{
    if count <= most { Some(count) } else { None }
}

// The bytes of a frame that are not taken yet. Each function gives nothing where they are not what it takes.
#[derive(Clone, Copy)]
pub struct Frame<'a> {
    rest: &'a [u8],
}

impl<'a> Frame<'a> {
    pub fn over(bytes: &'a [u8]) -> Frame<'a> {
        Frame { rest: bytes }
    }

    // So many bytes.
    pub fn bytes(&mut self, count: usize) -> Option<&'a [u8]>
        ensures { IfSome result (λ s. length s.now ≡ count) }
    {
        let (bytes, rest) = self.rest.split_at_checked(count)?;
        self.rest = rest;
        Some(bytes)
    }

    pub fn byte(&mut self) -> Option<u8> {
        let bytes = self.bytes(1)?;
        Some(bytes[0])
    }

    pub fn two(&mut self) -> Option<u16> {
        let bytes = self.bytes(2)?;
        Some(u16::from_be_bytes([bytes[0], bytes[1]]))
    }

    pub fn four(&mut self) -> Option<u32> {
        let bytes = self.bytes(4)?;
        Some(u32::from_be_bytes([bytes[0], bytes[1], bytes[2], bytes[3]]))
    }

    // A number of one byte, or of two, that is at most so large.
    pub fn short_count(&mut self, most: usize) -> Option<usize>
        ensures { IfSome result (λ n. n ≤ most) }
    {
        at_most(usize::from(self.byte()?), most)
    }

    pub fn count(&mut self, most: usize) -> Option<usize>
        ensures { IfSome result (λ n. n ≤ most) }
    {
        at_most(usize::from(self.two()?), most)
    }

    pub fn set(&mut self, form: SetForm) -> Option<DigitSet> {
        let width = self.byte()?;
        match form {
            SetForm::Whole => Some(DigitSet::whole(width)),
            SetForm::Between => {
                let largest = self.byte()?;
                Some(DigitSet { width, largest })
            }
        }
    }

    // All that is left, at most so many bytes.
    pub fn rest(self, most: usize) -> Option<&'a [u8]>
        ensures { IfSome result (λ s. length s.now ≤ most) }
    {
        if self.rest.len() <= most {
            Some(self.rest)
        } else {
            None
        }
    }

    // The same, as pairs.
    pub fn pairs(self, most: usize) -> Option<&'a [[u8; 2]]>
        ensures { IfSome result (λ s. length s.now ≤ most) }
    {
        let (pairs, odd) = self.rest.as_chunks::<2>();
        if odd.is_empty() && pairs.len() <= most {
            Some(pairs)
        } else {
            None
        }
    }
}

// Bytes as digits, in two's complement.
pub fn digits(bytes: &[u8]) -> [i8; lent::PLACES] {
    let mut digits = [lent::DIGIT; lent::PLACES];
    for (digit, byte) in digits.iter_mut().zip(bytes) {
        *digit = byte.cast_signed();
    }
    digits
}

// Pairs of bytes as tape words.
pub fn words(pairs: &[[u8; 2]]) -> [u16; lent::WORDS] {
    let mut words = [lent::WORD; lent::WORDS];
    for (word, pair) in words.iter_mut().zip(pairs) {
        *word = u16::from_be_bytes(*pair);
    }
    words
}
