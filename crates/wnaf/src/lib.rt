// Form 2, wNAF, in any set: from the lowest place up, a stretch of the scalar at a time. A stretch holds what remains, and each digit is taken off it: the zeros under the
// digit are jumped over by their count, and the w - 1 zeros after it with it. The digits come one after another, and are written, or only counted.
#![tactic(auto)]

ghost use Rattle.std.specs.Prelude.{◌≡◌, ◌+◌, ◌*◌, ◌-◌, ◌/◌, ◌%◌, ◌^◌, ◌<◌, ◌≤◌, pos, neg_ℤ, ◌-ℤ◌, length};
ghost use Rattle.meaning.specs.Scalars.{number, bit_count, most_bytes};
ghost use Rattle.meaning.specs.Digits.{most_places, weight, top};
ghost use Rattle.meaning.specs.Recoding.{mark_words, marks_of};
ghost use Rattle.meaning.specs.Sets.{Pair};
ghost use Rattle.scalar.specs.Orders.{ordered};
ghost use Rattle.forms.specs.Fractional.{fractional_from};
ghost use Rattle.wnaf.specs.Stretches.{Carried, Left, Takes, Ready, found};

use digits::Count;
use scalar::{Order, STRETCH};
use width::{Bits, Width};

// A size below nought.
fn minus(size: u64) -> i8
    requires { size < 128 }
    ensures { result ≡ neg_ℤ (pos size) }
{
    0 - (size as i8)
}

// A digit by what is left over of a number that was raised by `over`.
fn lowered(rest: u64, over: u64) -> i8
    requires { (rest < over + 128) × (over < rest + 128) }
    ensures { result ≡ pos rest -ℤ pos over }
{
    if rest < over {
        return minus(over - rest);
    }
    (rest - over) as i8
}

// A digit below nought is paid back by a carry.
fn carried(rest: u64, over: u64) -> u64
    ensures { Carried rest over result }
{
    u64::from(rest < over)
}

// Half the span of a digit: a power of two over every digit of the whole width.
fn half_span(w: Bits) -> u64
    ensures { result ≡ 2 ^ (w.bits - 1) }
{
    1u64 << (w.bits - 1)
}

// A digit set in machine words: the bits of its width and its largest digit.
#[derive(Clone, Copy)]
pub struct Set {
    pub w: Bits,
    pub largest: u64,
    pub ghost pair: { Pair w.bits largest },
}

impl Set {
    ghost use Rattle.meaning.specs.Digits.{largest};

    // That of a whole width.
    pub fn whole(w: Bits) -> Set
        ensures { (result.w.bits ≡ w.bits) × (result.largest ≡ largest w.bits) }
    {
        Set {
            w,
            largest: half_span(w) - 1,
        }
    }
}

impl From<Width> for Set {
    ghost from_gives = { λ width set. (set.w.bits ≡ width.bits) × (set.largest ≡ width.largest) };

    fn from(width: Width) -> Set {
        Set {
            w: width.bits(),
            largest: u64::from(width.largest()),
        }
    }
}

// A digit, the carry that goes on, and what remains after it, as far as the stretch goes.
#[derive(Clone, Copy)]
struct Taken {
    digit: i8,
    carry: u64,
    rest: u64,
}

fn left(rest: u64, over: u64, above: u64) -> Taken
    requires { (rest < over + 128) × (over < rest + 128) }
    ensures { Left rest over above result.digit result.carry result.rest }
{
    Taken {
        digit: lowered(rest, over),
        carry: carried(rest, over),
        rest: above,
    }
}

// In a whole set the digit at an odd y is its signed residue modulo 2 ^ w: y is raised by half the span.
fn take_whole(w: Bits, half: u64, y: u64) -> Taken
    requires { (2 * half ≡ 2 ^ w.bits) × (y % 2 ≡ 1) × (y < 2 ^ 57) }
    ensures { Takes w.bits (half - 1) y result.digit result.carry result.rest }
{
    let raised = y + half;
    left(raised % (1u64 << w.bits), half, raised >> w.bits)
}

// In a set between two widths it is the one modulo 2 ^ (w + 1), where y raised by the largest digit leaves at most twice that over; else the one modulo 2 ^ w.
fn take_between(set: Set, y: u64) -> Taken
    requires { (y % 2 ≡ 1) × (y < 2 ^ 57) }
    ensures { Takes set.w.bits set.largest y result.digit result.carry result.rest }
{
    let largest = set.largest;
    let raised = y + largest;
    let span = 1u64 << (set.w.bits + 1);
    let rest = raised % span;
    let above = 2 * (raised / span);
    if rest <= 2 * largest {
        return left(rest, largest, above);
    }
    left(rest, largest + span / 2, above + 1)
}

// Takes the digit off an odd y.
fn take(set: Set, half: u64, y: u64) -> Taken
    requires { (half ≡ 2 ^ (set.w.bits - 1)) × (y % 2 ≡ 1) × (y < 2 ^ 57) }
    ensures { Takes set.w.bits set.largest y result.digit result.carry result.rest }
{
    if set.largest < half {
        return take_whole(set.w, half, y);
    }
    take_between(set, y)
}

// Where the places end at which a digit may start whose w + 1 bits lie in the stretch from place `from` on.
fn stretch_end(w: Bits, from: usize, places: usize) -> usize
    requires { (from < places) × (places ≤ most_places) }
    ensures { (from < result) × (result ≤ places) × (result + w.bits ≤ from + 56) }
{
    (from + STRETCH - w.bits as usize).min(places)
}

// ---- the digits, one after another
// The digits of the string of `s` that are not 0, from the lowest up, each with its place. Those under `place` are given, and `carry` goes on to it. What remains there is
// `rest`, as far as the stretch goes, and digits may start in it under `end`.
// It is no Iterator: one whose `next` goes on to the next stretch by itself proves too, but by it writing in a whole set takes 6 to 20 in a hundred more time, and 32 bytes more of stack.
#[derive(Drop)]
struct Digits<'a> {
    set: Set,
    order: Order,
    s: &'a [u8],
    place: usize,
    carry: u64,
    rest: u64,
    end: usize,
    ghost ready: { Ready set.w.bits set.largest (number (ordered order) s.now) (bit_count s.now) place carry rest end },
}

impl<'a> Digits<'a> {
    ghost use Rattle.std.specs.Prelude.{[], ◌∷◌, MatchBool, MatchOption};
    ghost use Rattle.wnaf.specs.Coming.{digits_left};

    // No stretch is read yet.
    fn of(set: Set, order: Order, s: &'a [u8]) -> Digits<'a>
        requires s_len_bound { length s.now ≤ most_bytes }
        ensures value { digits_left result ≡ found 0 (fractional_from set.w.bits set.largest (bit_count s.now + 1) (number (ordered order) s.now)) }
        ensures used { result.end ≤ result.place }
    {
        Digits {
            set,
            order,
            s,
            place: 0,
            carry: 0,
            rest: 0,
            end: 0,
        }
    }

    // Goes on to the next stretch, and tells whether there is one. Inlined, as `next` is, the state stays in registers.
    #[inline(always)]
    fn go_on(&mut self) -> bool
        requires used { self.old.end ≤ self.old.place }
        ensures same { digits_left self.new ≡ digits_left self.old }
        ensures more { MatchBool result (self.old.end < self.new.end) (digits_left self.new ≡ []) }
    {
        let places = 8 * self.s.len() + 1;
        if places <= self.place {
            return false;
        }
        self.rest = scalar::stretch(self.order, self.s, self.place) + self.carry;
        self.end = stretch_end(self.set.w, self.place, places);
        true
    }

    // Takes the next digit off the stretch, if one starts in it.
    #[inline(always)]
    fn next(&mut self) -> Option<(usize, i8)>
        ensures first { MatchOption result ((digits_left self.new ≡ digits_left self.old) × (self.new.end ≤ self.new.place)) (λ f. digits_left self.old ≡ f ∷ digits_left self.new) }
        ensures end_same { self.new.end ≡ self.old.end }
    {
        let zeros = self.rest.trailing_zeros();
        let at = self.place + zeros as usize;
        if self.end <= at {
            self.place = self.place.max(self.end);
            return None;
        }
        let taken = take(self.set, half_span(self.set.w), self.rest >> zeros);
        self.place = at + self.set.w.bits as usize;
        self.carry = taken.carry;
        self.rest = taken.rest;
        Some((at, taken.digit))
    }
}

// Writes the string of `s` into exactly as many places as it has, and its marks. The last digit has the top.
pub fn write(set: Set, order: Order, s: &[u8], digits: &mut [i8], marks: &mut [u64]) -> usize
    requires s_len_bound { length s.now ≤ most_bytes }
    requires digits_len { length digits.old ≡ bit_count s.now + 1 }
    requires marks_len { length marks.old ≡ mark_words }
    ensures digits_after { digits.new ≡ fractional_from set.w.bits set.largest (bit_count s.now + 1) (number (ordered order) s.now) }
    ensures marks_after { marks.new ≡ marks_of digits.new }
    ensures value { result ≡ top digits.new }
{
    places::clear(digits, marks);
    let mut top = 0;
    let mut string = Digits::of(set, order, s);
    while string.go_on() {
        while let Some((place, digit)) = string.next() {
            places::put(digits, marks, place, digit);
            top = place + 1;
        }
    }
    top
}

// The weight and the top of the string of `s`, with no memory for its digits.
pub fn count(set: Set, order: Order, s: &[u8]) -> Count
    requires s_len_bound { length s.now ≤ most_bytes }
    ensures weight_value { result.weight ≡ weight (fractional_from set.w.bits set.largest (bit_count s.now + 1) (number (ordered order) s.now)) }
    ensures top_value { result.top ≡ top (fractional_from set.w.bits set.largest (bit_count s.now + 1) (number (ordered order) s.now)) }
{
    let mut weight = 0;
    let mut top = 0;
    let mut string = Digits::of(set, order, s);
    while string.go_on() {
        while let Some((place, _)) = string.next() {
            weight += 1;
            top = place + 1;
        }
    }
    Count { weight, top }
}
