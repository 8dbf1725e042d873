// Judges digit strings made elsewhere: the call `check`, and `check_nonadjacent` that also asks how far apart the nonzero digits stand.
#![tactic(auto)]

ghost use Rattle.std.specs.Prelude.{◌≡◌, ◌≢◌, true, ℕ, ◌+◌, ◌*◌, ◌/◌, ◌%◌, ◌^◌, ◌≤◌, ◌<◌, pos, length, get_or};
ghost use Rattle.laws.specs.Deciding.{Decides};
ghost use Rattle.meaning.specs.Scalars.{number, most_bytes};
ghost use Rattle.meaning.specs.Digits.{most_places, worth};
ghost use Rattle.meaning.specs.Checking.{Crowded, check_rules, nonadjacent_rules, Check};
ghost use Rattle.digits.specs.Tallies.{answered};
ghost use Rattle.scalar.specs.Orders.{ordered};
ghost use Rattle.judge.specs.Levels.{level, Raised, Stretch, Turned};
ghost use Rattle.judge.specs.Spaces.{Clear, Spacing};

use digits::Accepted;
use refusals::{Reason, Refusal};
use scalar::{MOST_BYTES, Order};
use width::{DigitSet, Width};

// ---- worth
// Digits and carries are kept this much above what they are: none is then below nought.
const LEVEL: u32 = 256;

// The digit at place i, which is 0 above the string.
fn digit_at(digits: &[i8], i: usize) -> u32
    ensures { Raised level (get_or digits.now i (pos 0)) result }
{
    digits.get(i).map_or(LEVEL, |&digit| {
        LEVEL.wrapping_add_signed(i32::from(digit))
    })
}

// The eight lowest digits of a part of the string, as one number.
fn lowest_eight(part: &[i8]) -> u32
    ensures { Stretch part.now 0 8 result }
{
    let mut sum = 0;
    for k in (0..8).rev() {
        sum = 2 * sum + digit_at(part, k);
    }
    sum
}

// The digits of the eight places from place i up, which stand in the string, as one number. They are lent by themselves: of a part with eight places a compiler
// knows that none is looked for above it.
fn eight_within(digits: &[i8], i: usize) -> u32
    requires { (i + 8 ≤ length digits.now) × (i + 8 < 2 ^ 64) }
    ensures { Stretch digits.now i 8 result }
{
    lowest_eight(&digits[i..i + 8])
}

// The same wherever they stand.
fn eight(digits: &[i8], i: usize) -> u32
    requires { i + 8 < 2 ^ 64 }
    ensures { Stretch digits.now i 8 result }
{
    if i + 8 <= digits.len() {
        return eight_within(digits, i);
    }
    if i <= digits.len() {
        return lowest_eight(&digits[i..]);
    }
    255 * LEVEL
}

// What the comparison of eight places with a byte leaves: a carry to the next eight, and here 0 only if the two agree.
#[derive(Clone, Copy)]
struct Turn {
    carry: u32,
    left: u32,
}

// Two parts of a number: the low one waits for the carry, and the high one for nothing. A machine then goes on to the next eight places before it has the carry to them.
fn carried(there: u32, carry: u32) -> Turn
    requires { (there < 2 ^ 31) × (carry ≤ 512) }
    ensures { result ≡ record { carry = (there + carry) / 256; left = (there + carry) % 256 } }
{
    let low = there % 256 + carry;
    Turn {
        carry: there / 256 + low / 256,
        left: low % 256,
    }
}

// Whether the string is worth the scalar. They are compared from the lowest places up, to the last place of either: nothing may be left
// at any eight places, and nothing carried past the top. So no number on the way outgrows a word, and none is cut down to one. As far as both
// reach, nothing is asked about their ends.
fn worth_is(order: Order, scalar: &[u8], digits: &[i8]) -> bool
    requires { (length scalar.now ≤ most_bytes) × (length digits.now ≤ most_places) }
    ensures { Decides result (worth digits.now ≡ pos (number (ordered order) scalar.now)) }
{
    let end = ((digits.len() + 7) / 8).max(scalar.len());
    let both = (digits.len() / 8).min(scalar.len());
    let mut carry = LEVEL;
    'both: for q in 0..both {
        let turn = carried(
            eight_within(digits, 8 * q) - scalar::byte(order, scalar, q),
            carry,
        );
        if turn.left != 0 {
            return false;
        }
        carry = turn.carry;
    }
    'above: for q in both..end {
        let turn = carried(eight(digits, 8 * q) - scalar::byte(order, scalar, q), carry);
        if turn.left != 0 {
            return false;
        }
        carry = turn.carry;
    }
    carry == LEVEL
}

// ---- spacing
// The lower place of the lowest pair that stands too near. It is looked for from place 0 up; each nonzero digit is looked at with the last one under it alone: those further
// down are no nearer.
fn near(w: u8, digits: &[i8]) -> Option<usize>
    ensures { Spacing w digits.now result }
{
    let span = usize::from(w);
    let mut free = 0;
    for (i, &digit) in digits.iter().enumerate() {
        if digit != 0 {
            if i < free {
                return Some(free - span);
            }
            free = i + span;
        }
    }
    None
}

// Of the next two a yes alone is relied on: after a no the pair is looked for.
// Whether no two nonzero digits stand `gap` apart. The loop has no branch and runs to the string's end, so a machine takes many digits at a time.
fn clear(gap: usize, digits: &[i8]) -> bool
    ensures { result ≡ true → Clear gap digits.now }
{
    let mut all = true;
    for i in gap..digits.len() {
        all &= (digits[i - gap] == 0) | (digits[i] == 0);
    }
    all
}

// Whether no two nonzero digits stand too near.
fn apart(w: u8, digits: &[i8]) -> bool
    ensures { result ≡ true → (p : ℕ) → Crowded w digits.now p → ⊥ }
{
    for gap in 1..usize::from(w) {
        if !clear(gap, digits) {
            return false;
        }
    }
    true
}

// A string whose digits stand apart, as most do, is told by its gaps alone.
fn spacing(w: u8, digits: &[i8]) -> Option<usize>
    ensures { Spacing w digits.now result }
{
    if apart(w, digits) {
        return None;
    }
    near(w, digits)
}

// ---- the calls
// The plain check.
pub fn check(set: DigitSet, order: Order, scalar: &[u8], digits: &[i8]) -> Result<Accepted, Refusal>
    ensures { Check (check_rules set.width set.largest (ordered order) scalar.now digits.now) digits.now (answered result) }
{
    let width = set.tried()?;
    if MOST_BYTES < scalar.len() {
        return Err(Reason::LongScalar.into());
    }
    if Width::MOST_PLACES < digits.len() {
        return Err(Reason::LongString.into());
    }
    match digits::scan(width, digits) {
        Err(place) => Err(Refusal {
            reason: Reason::BadDigit,
            place: place as u16,
        }),
        Ok(count) => {
            if !worth_is(order, scalar, digits) {
                return Err(Reason::OtherWorth.into());
            }
            Ok(Accepted {
                weight: count.weight as u16,
                top: count.top as u16,
            })
        }
    }
}

// The check of a string whose nonzero digits have to stand apart. Its own rule is the last, so what the plain check refuses stays refused.
pub fn check_nonadjacent(
    set: DigitSet,
    order: Order,
    scalar: &[u8],
    digits: &[i8],
) -> Result<Accepted, Refusal>
    ensures { Check (nonadjacent_rules set.width set.largest (ordered order) scalar.now digits.now) digits.now (answered result) }
{
    let plain = check(set, order, scalar, digits)?;
    match spacing(set.width, digits) {
        Some(place) => Err(Refusal {
            reason: Reason::NearDigits,
            place: place as u16,
        }),
        None => Ok(plain),
    }
}
