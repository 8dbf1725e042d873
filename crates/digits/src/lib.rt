// A string of digits looked at as a whole: whether a width has them all, the lowest that it has not, the weight and the top.
#![tactic(auto)]

ghost use Rattle.std.specs.Prelude.{◌≡◌, false, ◌≤◌, length};
ghost use Rattle.meaning.specs.Digits.{most_places, all_in, nonzero, weight, top};
ghost use Rattle.meaning.specs.Refusals.{Lowest};
ghost use Rattle.meaning.specs.Checking.{BadDigit};
ghost use Rattle.digits.specs.Scans.{Scan};
ghost use Rattle.digits.specs.Tallies.{Answers};

use refusals::Refusal;
use width::Width;

// The weight and the top of a string.
#[derive(Clone, Copy)]
pub struct Count {
    pub weight: usize,
    pub top: usize,
}

// ---- all digits
// The loops of this part run to the string's end whatever they meet, and what they do at a digit is no branch: so a machine takes many digits at a time.
// Whether the width has all digits.
fn sound(width: Width, digits: &[i8]) -> bool
    ensures { result ≡ all_in width.largest digits.now }
{
    let mut all = true;
    for &digit in digits {
        all &= width.holds(digit);
    }
    all
}

// 1 for a digit that is not 0.
pub fn counted(digit: i8) -> u16
    ensures { result ≡ nonzero digit }
{
    u16::from(digit != 0)
}

// The count is kept as small as it may be: the fewer bytes it has, the more digits are counted at a time.
pub fn weight(digits: &[i8]) -> u16
    requires { length digits.now ≤ most_places }
    ensures { result ≡ weight digits.now }
{
    let mut sum: u16 = 0;
    for &digit in digits {
        sum += counted(digit);
    }
    sum
}

// ---- one digit
// The lowest place whose digit the width does not have, in a string that has such a place.
fn lowest_bad(width: Width, digits: &[i8]) -> usize
    requires { all_in width.largest digits.now ≡ false }
    ensures { Lowest (BadDigit width.largest digits.now) result }
{
    for (i, &digit) in digits.iter().enumerate() {
        if !width.holds(digit) {
            return i;
        }
    }
    unreachable!()
}

// The highest digits are looked at first: there are few above the top.
pub fn top(digits: &[i8]) -> usize
    ensures { result ≡ top digits.now }
{
    for i in (0..digits.len()).rev() {
        if digits[i] != 0 {
            return i + 1;
        }
    }
    0
}

// ---- the scan
// The counts of a string whose digits the width has all, or the lowest place whose digit it has not.
pub fn scan(width: Width, digits: &[i8]) -> Result<Count, usize>
    requires { length digits.now ≤ most_places }
    ensures { Scan width.largest digits.now result }
{
    if !sound(width, digits) {
        return Err(lowest_bad(width, digits));
    }
    Ok(Count {
        weight: usize::from(weight(digits)),
        top: top(digits),
    })
}

// ---- the answer
// The weight and the top that recode and the checks give on acceptance.
#[derive(Clone, Copy)]
pub struct Accepted {
    pub weight: u16,
    pub top: u16,
}

// The same for C: 0, or the number of a refusal; the place where the refusal names one; and on acceptance the weight and the top.
#[repr(C)]
#[derive(Clone, Copy)]
pub struct Tally {
    pub refusal: u8,
    pub place: u16,
    pub weight: u16,
    pub top: u16,
}

impl From<Result<Accepted, Refusal>> for Tally {
    ghost from_gives = { Answers };

    fn from(answer: Result<Accepted, Refusal>) -> Tally {
        match answer {
            Ok(accepted) => Tally {
                refusal: 0,
                place: 0,
                weight: accepted.weight,
                top: accepted.top,
            },
            Err(refusal) => Tally {
                refusal: refusal.reason.into(),
                place: refusal.place,
                weight: 0,
                top: 0,
            },
        }
    }
}
