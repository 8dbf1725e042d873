// The width of a recoding with its largest digit, and everything that depends on them alone: the limits of widths, strings and tapes, the digit set, and where its
// windows start in the table. A call gets its width from a raw byte by `known`, with another largest digit by `reaching`, from both by `DigitSet::tried`, and by nothing else.
#![tactic(auto)]

ghost use Rattle.std.specs.Prelude.{◌≡◌, ◌+◌, ◌*◌, ◌≤◌};
ghost use Rattle.meaning.specs.Digits.{least_width, most_width, most_places, in_set, entries};
ghost use Rattle.meaning.specs.Sets.{Pair};
ghost use Rattle.meaning.specs.Words.{most_words};
ghost use Rattle.meaning.specs.Windows.{table_start};

use refusals::Reason;

// How many bits a digit has, its sign included, and the largest digit. The spacing of digits and the windows go by the bits, the digit set and the entries by the largest digit.
#[derive(Clone, Copy)]
pub struct Width {
    bits: u8,
    largest: u8,
    // The two make a digit set.
    pub ghost lawful: { Pair bits largest },
}

// The bits of a width alone, in a machine word, for what goes by them and not by the largest digit.
#[derive(Clone, Copy)]
pub struct Bits {
    pub bits: u32,
    // They are those of a width.
    pub ghost wide: { (least_width ≤ bits) × (bits ≤ most_width) },
}

// A set as a call is asked for one: a width and a largest digit, which may be none.
#[repr(C)]
#[derive(Clone, Copy)]
pub struct DigitSet {
    pub width: u8,
    pub largest: u8,
}

impl DigitSet {
    ghost use Rattle.width.specs.Widths.{Entire, Tried};

    // The set of a whole width.
    pub fn whole(width: u8) -> DigitSet
        ensures { Entire width result }
    {
        let largest = Width::known(width).map_or(0, |known| known.largest);
        DigitSet { width, largest }
    }

    // The width of the set, where the two bytes make one; else what is refused, the width or the largest digit.
    pub fn tried(self) -> Result<Width, Reason>
        ensures { Tried self.width self.largest result }
    {
        let Some(whole) = Width::known(self.width) else {
            return Err(Reason::BadWidth);
        };
        whole.reaching(self.largest).ok_or(Reason::BadSet)
    }
}

impl Width {
    ghost use Rattle.width.specs.Widths.{Known, Whole, Limits, Reaches};

    // The smallest and the largest width.
    pub const LEAST: u8 = 2;

    pub const MOST: u8 = 8;

    // The fewest and the most places of a string.
    pub const LEAST_PLACES: usize = 0;

    pub const MOST_PLACES: usize = 529;

    // The fewest and the most words of a tape: a load, and a double and an addition for each place under the highest.
    pub const LEAST_WORDS: usize = 0;

    pub const MOST_WORDS: usize = 2 * Width::MOST_PLACES - 1;

    // What a raw byte is: a width from the smallest to the largest, or none.
    pub fn known(byte: u8) -> Option<Width>
        ensures { Known byte result }
    {
        if byte < Width::LEAST || Width::MOST < byte {
            return None;
        }
        Some(Width {
            bits: byte,
            largest: (1u8 << (byte - 1)) - 1,
        })
    }

    // A whole width with another largest digit, where the two make a set: an odd one, from that of this width to that of the next; the largest width has its own alone.
    pub fn reaching(self, digit: u8) -> Option<Width>
        requires { Whole self }
        ensures { Reaches self.bits digit result }
    {
        if digit % 2 == 0 || digit < self.largest {
            return None;
        }
        if self.largest < digit / 2 {
            return None;
        }
        if self.bits == Width::MOST && digit != self.largest {
            return None;
        }
        Some(Width {
            bits: self.bits,
            largest: digit,
        })
    }

    pub fn bits(self) -> Bits
        ensures { result.bits ≡ self.bits }
    {
        Bits {
            bits: u32::from(self.bits),
        }
    }

    pub fn largest(self) -> u32
        ensures { result ≡ self.largest }
    {
        u32::from(self.largest)
    }

    // How many odd multiples a run stores: one for each positive digit.
    pub fn entries(self) -> usize
        ensures { result ≡ entries self.largest }
    {
        (usize::from(self.largest) + 1) / 2
    }

    // The size of the digit set: 0, and an odd number and its negative for each entry. Its contract also says what the limits above are.
    pub fn digits(self) -> usize
        ensures size { result ≡ 2 * entries self.largest + 1 }
        ensures widths { Limits least_width most_width Width.LEAST Width.MOST }
        ensures places { Limits 0 most_places Width.LEAST_PLACES Width.MOST_PLACES }
        ensures words { Limits 0 most_words Width.LEAST_WORDS Width.MOST_WORDS }
    {
        2 * self.entries() + 1
    }

    // Whether `d` is in the digit set. Every set has 1, so 0 is tested as 1: a machine then has no branch to guess at each digit that is not 0.
    pub fn holds(self, d: i8) -> bool
        ensures { result ≡ in_set self.largest d }
    {
        let size = d.unsigned_abs().max(1);
        size % 2 == 1 && size <= self.largest
    }

    // Where the windows of this width start in the table: those of the smaller widths stand before them.
    pub fn table_start(self) -> usize
        ensures { result ≡ table_start self.bits }
    {
        (2usize << self.bits) - (2usize << Width::LEAST)
    }
}
