// Chooses a width: for a scalar and a number of entries that the chip can hold, the one whose tape and multiples take the fewest steps together. No string is written: its weight and its
// top are counted.
#![tactic(auto)]

ghost use Rattle.std.specs.Prelude.{◌≡◌, ◌+◌, ◌-◌, ◌≤◌, length};
ghost use Rattle.meaning.specs.Scalars.{number, bit_count, most_bytes};
ghost use Rattle.meaning.specs.Multiples.{cost_of};
ghost use Rattle.meaning.specs.Choosing.{multiples_at, Totals, Choose};
ghost use Rattle.scalar.specs.Orders.{ordered};
ghost use Rattle.choice.specs.Answers.{chosen, Answers};
ghost use Rattle.choice.specs.Best.{Best};

use refusals::Reason;
use scalar::{MOST_BYTES, Order};
use width::{Bits, Width};
use wnaf::Set;

// ---- the total of a width
// How many multiples a width has.
fn multiples(w: Bits) -> u32
    ensures { result ≡ multiples_at w.bits }
{
    1u32 << (w.bits - u32::from(Width::LEAST))
}

// What so many multiples cost, doublings and additions together: one is the base itself, and of more each but the first takes an addition, and all of them one doubling.
fn cost(count: u32) -> u32
    ensures { result ≡ (cost_of count).doublings + (cost_of count).additions }
{
    if count < 2 { 0 } else { count }
}

// The doublings and additions of the tape of the wNAF, and the cost of the multiples.
fn total(w: Bits, order: Order, s: &[u8]) -> u16
    requires { length s.now ≤ most_bytes }
    ensures { Totals (number (ordered order) s.now) (bit_count s.now) w.bits result }
{
    let counts = wnaf::count(Set::whole(w), order, s);
    let doublings = counts.top.saturating_sub(1);
    let additions = counts.weight.saturating_sub(1);
    (doublings + additions + cost(multiples(w)) as usize) as u16
}

// ---- the call
// A width and its total.
#[derive(Clone, Copy)]
pub struct Choice {
    pub width: u8,
    pub total: u16,
}

// The best of the widths under w, and of w if its multiples fit. On a tie the smaller stays.
fn tried(w: Bits, entries: u32, order: Order, s: &[u8], best: Choice) -> Choice
    requires s_len_bound { length s.now ≤ most_bytes }
    requires best { Best (number (ordered order) s.now) (bit_count s.now) entries w.bits best.width best.total }
    ensures { Best (number (ordered order) s.now) (bit_count s.now) entries (w.bits + 1) result.width result.total }
{
    if entries < multiples(w) {
        return best;
    }
    let total = total(w, order, s);
    if best.total <= total {
        return best;
    }
    Choice {
        width: w.bits as u8,
        total,
    }
}

pub fn choose(order: Order, scalar: &[u8], entries: u32) -> Result<Choice, Reason>
    ensures { Choose (ordered order) scalar.now entries (chosen result) }
{
    if MOST_BYTES < scalar.len() {
        return Err(Reason::LongScalar);
    }
    if entries == 0 {
        return Err(Reason::NoWidthFits);
    }
    let least = Bits {
        bits: u32::from(Width::LEAST),
    };
    let mut best = Choice {
        width: Width::LEAST,
        total: total(least, order, scalar),
    };
    for w in Width::LEAST + 1..=Width::MOST {
        let bits = u32::from(w);
        best = tried(Bits { bits }, entries, order, scalar, best);
    }
    Ok(best)
}

// The same for C: 0, or the number of a refusal; on acceptance the width and its total.
#[repr(C)]
#[derive(Clone, Copy)]
pub struct Chosen {
    pub refusal: u8,
    pub width: u8,
    pub total: u16,
}

impl From<Result<Choice, Reason>> for Chosen {
    ghost from_gives = { Answers };

    fn from(answer: Result<Choice, Reason>) -> Chosen {
        match answer {
            Ok(choice) => Chosen {
                refusal: 0,
                width: choice.width,
                total: choice.total,
            },
            Err(reason) => Chosen {
                refusal: reason.into(),
                width: 0,
                total: 0,
            },
        }
    }
}
