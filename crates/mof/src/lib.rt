// Form 1, MOF: the digit of a place is the bit under it less its own, so it is put where the two differ. A stretch of the scalar tells where.
#![tactic(auto)]

ghost use Rattle.std.specs.Prelude.{◌≡◌, ◌+◌, ◌-◌, ◌/◌, ◌%◌, ◌^◌, ◌<◌, ◌≤◌, pos, ◌-ℤ◌, length};
ghost use Rattle.meaning.specs.Scalars.{number, bit_count, most_bytes};
ghost use Rattle.meaning.specs.Recoding.{mark_words, marks_of};
ghost use Rattle.meaning.specs.Mof.{mof};
ghost use Rattle.scalar.specs.Orders.{ordered};
ghost use Rattle.places.specs.Lent.{Lent};
ghost use Rattle.mof.specs.Above.{Above};

use places::{Places, opened};
use scalar::{Order, STRETCH};

// The bit under place `at` of stretch x, less its own.
fn digit(x: u64, at: u32) -> i8
    requires { at < 63 }
    ensures { result ≡ pos (x / 2 ^ at % 2) -ℤ pos (x / 2 ^ (at + 1) % 2) }
{
    windows::difference(((x >> at) % 2) as u32, ((x >> (at + 1)) % 2) as u32)
}

// The lowest place of a stretch whose highest is under `from`.
fn lowest_place(from: usize) -> usize
    requires { 0 < from }
    ensures { (result < from) × (from + 1 ≤ result + 56) }
{
    from.saturating_sub(STRETCH - 1)
}

// Writes the digits of one stretch under place `from`. Gives the lowest place of it.
fn advance(order: Order, s: &[u8], from: usize, places: &mut Places<'_>) -> usize
    requires s_len_bound { length s.now ≤ most_bytes }
    requires from_nonzero { 0 < from }
    requires above { Above (number (ordered order) s.now) (bit_count s.now) from places.old.digits.now }
    ensures upper_bound { result < from }
    ensures above_2 { Above (number (ordered order) s.now) (bit_count s.now) result places.new.digits.now }
    ensures same { Lent places.old places.new }
{
    let lowest = lowest_place(from);
    let x = scalar::stretch_under(order, s, lowest, 1);
    let mut opens = opened::places(0, x, from - lowest);
    // From one place that opens down to the next, by the bits: no index is counted.
    while opens != 0 {
        let at = opened::highest(0, opens);
        opens = opened::others(opens, at);
        places.put(lowest + at as usize, digit(x, at));
    }
    lowest
}

// Writes the string of `s` into exactly as many places as it has, and marks them.
pub fn write(order: Order, s: &[u8], digits: &mut [i8], marks: &mut [u64])
    requires s_len_bound { length s.now ≤ most_bytes }
    requires digits_len { length digits.old ≡ bit_count s.now + 1 }
    requires marks_len { length marks.old ≡ mark_words }
    ensures digits_after { digits.new ≡ mof (number (ordered order) s.now) (bit_count s.now) }
    ensures marks_after { marks.new ≡ marks_of digits.new }
{
    let mut left = digits.len();
    let mut places = Places::cleared(digits, marks);
    while 0 < left {
        left = advance(order, s, left, &mut places);
    }
}
