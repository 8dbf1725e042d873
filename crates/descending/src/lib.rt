// Forms 3 to 5, wMOF and the two closest, from the top place down: a window at each place whose bit differs from the one under it. A stretch of the scalar tells at once
// all places where one may open. The forms differ at one window at most, which the closest form takes one lower at a tie.
#![tactic(auto)]

ghost use Rattle.std.specs.Prelude.{◌≡◌, ◌+◌, ◌-◌, ◌/◌, ◌%◌, ◌^◌, ◌<◌, ◌≤◌, min, length};
ghost use Rattle.std.specs.Int.Count.{count_trailing_zeros};
ghost use Rattle.laws.specs.Deciding.{Decides};
ghost use Rattle.meaning.specs.Scalars.{number, bit_count, most_bytes};
ghost use Rattle.meaning.specs.Digits.{most_places};
ghost use Rattle.meaning.specs.Recoding.{mark_words, marks_of};
ghost use Rattle.windows.specs.Openings.{Placed};
ghost use Rattle.places.specs.Openings.{Clear};
ghost use Rattle.places.specs.Lent.{Lent};
ghost use Rattle.scalar.specs.Orders.{ordered};
ghost use Rattle.descending.specs.Sweeps.{Swept, Turns, bit_of, Halts, Tied, Yielded, Turned};

use places::{Places, opened};
use scalar::{Order, STRETCH};
use table::Window;
use width::Bits;
use windows::opening::Place;

// The leading bit at which the window of a tie is taken one lower, if it is at any.
#[derive(Clone, Copy)]
pub enum Turn {
    Never,
    AtOne,
    AtZero,
}

// The turn that a number tells: a leading bit, and no turn by any number above.
impl From<u32> for Turn {
    ghost from_gives = { λ number turn. bit_of turn ≡ min number 2 };

    fn from(number: u32) -> Turn {
        match number {
            0 => Turn::AtZero,
            1 => Turn::AtOne,
            _ => Turn::Never,
        }
    }
}

// The lowest place from `floor` up whose window lies in one stretch with the window of the highest place that is left.
fn lowest_place(w: Bits, left: usize, floor: usize) -> usize
    requires { (floor < left) × (left ≤ most_places) }
    ensures { (floor ≤ result) × (result < left) × (left + w.bits ≤ result + 56) }
{
    (left + w.bits as usize).saturating_sub(STRETCH).max(floor)
}

// The window that opens at place `at` of stretch x.
fn window(w: Bits, x: u64, at: u32) -> u32
    requires { at < 64 }
    ensures { result ≡ x / 2 ^ at % 2 ^ (w.bits + 1) }
{
    let span = w.bits + 1;
    ((x >> at) % (1u64 << span)) as u32
}

// Where the digit of a window that opens at place i stands. It is `windows::opening::placed` by what the loop has at hand, which keeps the stack small.
fn placed(tail: usize, window: Window, i: usize) -> Place
    requires { (i < most_places) × (window.twos ≤ tail) × (tail ≤ i + window.twos) }
    ensures { Placed (tail + 1) window (i + 1) result }
{
    Place {
        spot: i + (window.twos as usize) - tail,
        unit: window.unit,
        left: i.saturating_sub(tail),
    }
}

// Writes the digits of the windows that open in one stretch, at place `floor` or above, with `from` places left. Gives the places left then.
fn advance(
    w: Bits,
    order: Order,
    s: &[u8],
    from: usize,
    floor: usize,
    places: &mut Places<'_>,
) -> usize
    requires floor_lt_from { (floor < from) × (from ≤ length places.old.digits.now) × (length places.old.digits.now ≤ most_places) }
    requires clear { Clear from places.old.digits.now }
    ensures upper_bound { result < from }
    ensures swept { Swept w.bits (number (ordered order) s.now) floor from places.old.digits.now result places.new.digits.now }
    ensures same { Lent places.old places.new }
{
    let tail = w.bits as usize - 1;
    let lowest = lowest_place(w, from, floor);
    let x = scalar::stretch_under(order, s, lowest, w.bits);
    let mut opens = opened::places(tail, x, from - lowest);
    let mut left = from;
    // From one place that opens down to the next, by the bits: no index is counted.
    while opens != 0 {
        let at = opened::highest(tail, opens);
        opens = opened::below(opens, at);
        let bits = window(w, x, at);
        let place = placed(tail, windows::work_out(w, bits, 0), lowest + at as usize);
        places.put(place.spot, place.unit);
        left = place.left;
    }
    left.min(lowest)
}

// Whether window `bits` opens and leads with `bit`.
fn turns(w: Bits, bits: u32, bit: u32) -> bool
    ensures { Decides result (Turns w.bits bits bit) }
{
    windows::opening::opens(w, bits) && bits >> w.bits == bit
}

// Where the descent halts: over the window of the tie, w places above the lowest set bit, where it opens and leads with the bit at which it turns; else at the end,
// which is place 0. An Option of the place was tried: it takes 16 bytes of stack more through the loop of `write`, and a call that a board makes is then over its 256.
// It is over them too where this stands in the midst of `write`, so it is a call of its own.
#[inline(never)]
fn halt(w: Bits, turn: Turn, order: Order, s: &[u8]) -> usize
    requires s_len_bound { length s.now ≤ most_bytes }
    ensures { Halts (bit_of turn) w.bits (number (ordered order) s.now) (count_trailing_zeros (bit_count s.now) (number (ordered order) s.now)) result }
{
    let bit = match turn {
        Turn::Never => return 0,
        Turn::AtOne => 1,
        Turn::AtZero => 0,
    };
    let tie = scalar::lowest(order, s) + w.bits as usize;
    let bits = scalar::window(order, s, tie, w.bits);
    if turns(w, bits, bit) { tie + 1 } else { 0 }
}

// Takes the window of the tie one lower, and a 1 at the lowest set bit makes up for it. Where both lie is read again: kept, it would take stack through the loop.
fn last(w: Bits, order: Order, s: &[u8], places: &mut Places<'_>)
    requires s_len_bound { length s.now ≤ most_bytes }
    requires digits_len { length places.old.digits.now ≡ bit_count s.now + 1 }
    requires tied { Tied w.bits (number (ordered order) s.now) (count_trailing_zeros (bit_count s.now) (number (ordered order) s.now)) places.old.digits.now }
    ensures yielded { Yielded w.bits (number (ordered order) s.now) (count_trailing_zeros (bit_count s.now) (number (ordered order) s.now)) places.old.digits.now places.new.digits.now }
    ensures same { Lent places.old places.new }
{
    let low = scalar::lowest(order, s);
    let tie = low + w.bits as usize;
    let bits = scalar::window(order, s, tie, w.bits);
    let place = windows::opening::placed(w, windows::work_out(w, bits, 1), tie + 1);
    places.put(place.spot, place.unit);
    places.put(low, 1);
}

// Writes the string of `s` into exactly as many places as it has, and marks them. One window may tie: where it turns and is come to, it yields.
pub fn write(w: Bits, turn: Turn, order: Order, s: &[u8], digits: &mut [i8], marks: &mut [u64])
    requires s_len_bound { length s.now ≤ most_bytes }
    requires digits_len { length digits.old ≡ bit_count s.now + 1 }
    requires marks_len { length marks.old ≡ mark_words }
    ensures turned { Turned turn w.bits (number (ordered order) s.now) (bit_count s.now) digits.new }
    ensures marks_after { marks.new ≡ marks_of digits.new }
{
    let mut left = digits.len();
    let mut places = Places::cleared(digits, marks);
    let mut floor = halt(w, turn, order, s);
    while floor < left {
        left = advance(w, order, s, left, floor, &mut places);
        if left < floor {
            floor = 0;
        }
    }
    if floor != 0 {
        last(w, order, s, &mut places);
    }
}
