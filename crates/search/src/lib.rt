// The cross-check: a plain search for the least weight of a string of nine places worth a small number. It tries every digit at the lowest place, and searches
// what is left over it on one place fewer.
#![tactic(auto)]

ghost use Rattle.std.specs.Prelude.{◌≡◌, ◌+◌, ◌≤◌, pos};
ghost use Rattle.meaning.specs.Searching.{search_places, Search};
ghost use Rattle.width.specs.Widths.{Whole};
ghost use Rattle.search.specs.Answers.{searched, Answers};
ghost use Rattle.search.specs.Least.{most_number, left_over, Least};

use refusals::Reason;
use width::Width;

// Every string that is searched has this many places.
const PLACES: u8 = 9;

// No string: more than any weighs, so that a string found is the smaller. An `Option` would be no plainer: its `None` is the smallest.
const NOTHING: u8 = PLACES + 1;

// The largest width and the largest number that are searched.
const MOST_WIDTH: u8 = 3;

const MOST_NUMBER: u32 = 127;

// The size of what is left of `size` over digit number i, in the order 0, 1, -1, 3, -3 and so on.
fn left_over(size: usize, i: usize) -> usize
    requires { (size ≤ most_number) × (i ≤ most_number + 1) }
    ensures { result ≡ left_over size i }
{
    if i == 0 {
        size
    } else if i % 2 == 0 {
        size + (i - 1)
    } else {
        size.abs_diff(i)
    }
}

// The least weight of a string worth `size`. What is left over a digit may be negative: its size is searched, since a string with every digit negated is worth
// the negative and weighs the same.
fn least(width: Width, places: u8, size: usize) -> u8
    requires whole { Whole width }
    requires places_le_search_places { (places ≤ search_places) × (size ≤ most_number) }
    ensures { Least width.bits places (pos size) result }
{
    if places == 0 {
        return if size == 0 { 0 } else { NOTHING };
    }
    let mut best = NOTHING;
    for i in 0..width.digits() {
        // The places above are worth half of what is left. There is no such string where it is odd.
        let left = left_over(size, i);
        if left % 2 == 0 {
            let above = least(width, places - 1, left / 2);
            best = best.min(above + i.min(1) as u8);
        }
    }
    best
}

// The least weight of a string worth the number. Nine places suffice for every number that is taken, so there is one.
pub fn search(number: u32, width: u8) -> Result<u8, Reason>
    ensures { Search number width (searched result) }
{
    if MOST_WIDTH < width {
        return Err(Reason::BadWidth);
    }
    let known = Width::known(width).ok_or(Reason::BadWidth)?;
    if MOST_NUMBER < number {
        return Err(Reason::LongScalar);
    }
    Ok(least(known, PLACES, number as usize))
}

// The same for C: a refusal's number, or the least weight.
#[repr(C)]
#[derive(Clone, Copy)]
pub struct Searched {
    pub refusal: u8,
    pub weight: u8,
}

impl From<Result<u8, Reason>> for Searched {
    ghost from_gives = { Answers };

    fn from(answer: Result<u8, Reason>) -> Searched {
        match answer {
            Ok(weight) => Searched { refusal: 0, weight },
            Err(reason) => Searched {
                refusal: reason.into(),
                weight: 0,
            },
        }
    }
}
