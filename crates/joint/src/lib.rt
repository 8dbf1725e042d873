// The joint sparse form of two scalars and the tape of its columns. A counting pass tells how many words the tape has before a digit is written, so a
// refusal leaves every buffer as lent, and no table of digits is kept.
#![tactic(auto)]

ghost use Rattle.std.specs.Prelude.{◌≡◌, suc, ◌+◌, ◌≤◌, ◌<◌, length};
ghost use Rattle.meaning.specs.Joint.{column, columns_of};
ghost use Rattle.meaning.specs.Joining.{Joint};
ghost use Rattle.scalar.specs.Orders.{ordered};
ghost use Rattle.pairs.specs.Columns.{fst, snd, off, rule, row, jsf_n};
ghost use Rattle.joint.specs.Places.{levelled, side_of, first_of, second_of, bits_of, Placed, Weighed, Room, Written};
ghost use Rattle.joint.specs.Answers.{answered, Answers};

mod scalars;

use crate::scalars::Scalars;
use digits::Count;
use refusals::{Reason, Refusal};
use scalar::{MOST_BYTES, Order};
use std::cmp::Ordering;

// ---- one place
// A digit of each row, and the carries that go on.
#[derive(Clone, Copy)]
struct Turn {
    first: i8,
    second: i8,
    carry: u32,
    other: u32,
}

// The rule in two bits an entry, so that a shift reads it: first for each r beside a number that is not 2 modulo 4, then for each beside one that is.
const LEVELS: u32 = 295246105;

// The digit of a number that is r modulo 8 beside one that is s, and 1 more.
fn level(r: u32, s: u32) -> u32
    requires { (r < 8) × (s < 8) }
    ensures { result ≡ off (rule r s) }
{
    let turned = u32::from(s % 4 == 2);
    (LEVELS >> (2 * r + 16 * turned)) % 4
}

fn digit(level: u32) -> i8
    ensures { result ≡ levelled level }
{
    match level {
        0 => -1,
        1 => 0,
        _ => 1,
    }
}

fn place(scalars: Scalars, i: usize, carry: u32, other: u32) -> Turn
    requires { (carry ≤ 1) × (other ≤ 1) }
    ensures { Placed (first_of scalars.entry) (second_of scalars.entry) i carry other result }
{
    let x = scalar::field(scalars.order, scalars.a, i, 3);
    let y = scalar::field(scalars.order, scalars.b, i, 3);
    let r = (x + carry) % 8;
    let s = (y + other) % 8;
    let p = level(r, s);
    let q = level(s, r);
    Turn {
        first: digit(p),
        second: digit(q),
        carry: (x % 2 + carry + 1 - p) / 2,
        other: (y % 2 + other + 1 - q) / 2,
    }
}

// ---- columns
// 0 for a digit below nought, 1 for 0, 2 for one above.
fn side(digit: i8) -> usize
    ensures { result ≡ side_of digit }
{
    match digit.cmp(&0) {
        Ordering::Less => 0,
        Ordering::Equal => 1,
        Ordering::Greater => 2,
    }
}

// The digit of each column, by the sides of its two digits.
static COLUMNS: [[i8; 3]; 3] = [[-5, -1, -7], [-3, 0, 3], [7, 1, 5]];

// A column as the digit whose entry and sign it has. Looked up by its sides: the digits are as good as random, and a machine would guess a branch wrong.
fn column(first: i8, second: i8) -> i8
    ensures { result ≡ column first second }
{
    COLUMNS[side(first)][side(second)]
}

// The counting pass: the nonzero columns and the top.
fn weigh(scalars: Scalars) -> Count
    ensures { Weighed (first_of scalars.entry) (second_of scalars.entry) (bits_of scalars.entry) result }
{
    let mut count = Count { weight: 0, top: 0 };
    let mut carry: u32 = 0;
    let mut other: u32 = 0;
    for i in 0..8 * scalars.a.len() + 1 {
        let turn = place(scalars, i, carry, other);
        let digit = column(turn.first, turn.second);
        count.weight += usize::from(digits::counted(digit));
        if digit != 0 {
            count.top = i + 1;
        }
        carry = turn.carry;
        other = turn.other;
    }
    count
}

// ---- the writing pass
// Writes both rows into exactly as many places as they have. The index is the place, at which the bits are read and both rows are written.
fn rows(scalars: Scalars, first: &mut [i8], second: &mut [i8])
    requires first_len { length first.old ≡ bits_of scalars + 1 }
    requires second_len { length second.old ≡ bits_of scalars + 1 }
    ensures first_after { first.new ≡ row fst (jsf_n (suc (bits_of scalars.entry)) (first_of scalars.entry) (second_of scalars.entry)) }
    ensures second_after { second.new ≡ row snd (jsf_n (suc (bits_of scalars.entry)) (first_of scalars.entry) (second_of scalars.entry)) }
{
    let mut carry: u32 = 0;
    let mut other: u32 = 0;
    for i in 0..first.len() {
        let turn = place(scalars, i, carry, other);
        first[i] = turn.first;
        second[i] = turn.second;
        carry = turn.carry;
        other = turn.other;
    }
}

// Both rows, which have equally many places, as the digits of their columns.
#[derive(Clone, Copy)]
struct Columns<'a> {
    first: &'a [i8],
    second: &'a [i8],
    ghost equal: { length second.now ≡ length first.now },
}

impl<'a> tape::Places for Columns<'a> {
    ghost use Rattle.meaning.specs.Joint.{columns_of};

    ghost string = { λ columns. columns_of columns.first.now columns.second.now };

    fn digit(&self, i: usize) -> i8 {
        column(self.first[i], self.second[i])
    }
}

// Both, in rows that have exactly their places, and the words of their columns.
fn write(scalars: Scalars, high: usize, first: &mut [i8], second: &mut [i8], words: &mut [u16])
    requires first_len { length first.old ≡ bits_of scalars + 1 }
    requires second_len { length second.old ≡ bits_of scalars + 1 }
    requires room { Room (first_of scalars) (second_of scalars) (bits_of scalars) high (length words.old) }
    ensures { Written (first_of scalars.entry) (second_of scalars.entry) (bits_of scalars.entry) first.new second.new words.old words.new }
{
    rows(scalars, first, second);
    tape::write(&Columns { first, second }, high, words);
}

// ---- the call
// What both scalars come to: the nonzero columns, the top, and the counts of the tape's words, doublings and additions.
#[derive(Clone, Copy)]
pub struct Planned {
    pub columns: u16,
    pub top: u16,
    pub words: u16,
    pub doublings: u16,
    pub additions: u16,
}

// The same for C: 0, or the number of a refusal, whose place is 0; and the counts.
#[repr(C)]
#[derive(Clone, Copy)]
pub struct Joined {
    pub refusal: u8,
    pub place: u16,
    pub columns: u16,
    pub top: u16,
    pub words: u16,
    pub doublings: u16,
    pub additions: u16,
}

impl From<Result<Planned, Refusal>> for Joined {
    ghost from_gives = { Answers };

    fn from(answer: Result<Planned, Refusal>) -> Joined {
        match answer {
            Ok(planned) => Joined {
                refusal: 0,
                place: 0,
                columns: planned.columns,
                top: planned.top,
                words: planned.words,
                doublings: planned.doublings,
                additions: planned.additions,
            },
            Err(refusal) => Joined {
                refusal: refusal.reason.into(),
                place: refusal.place,
                columns: 0,
                top: 0,
                words: 0,
                doublings: 0,
                additions: 0,
            },
        }
    }
}

// The rows and the tape of two scalars, both in one order of bytes: nothing is written before the room for all of it has been judged.
pub fn joint(
    order: Order,
    a: &[u8],
    b: &[u8],
    first: &mut [i8],
    second: &mut [i8],
    tape: &mut [u16],
) -> Result<Planned, Refusal>
    ensures { Joint (ordered order) a.now b.now (record { first = first.old; second = second.old; words = tape.old }) (answered result) (record { first = first.new; second = second.new; words = tape.new }) }
{
    if MOST_BYTES < a.len() {
        return Err(Reason::LongScalar.into());
    }
    if MOST_BYTES < b.len() {
        return Err(Reason::LongScalar.into());
    }
    if a.len() != b.len() {
        return Err(Reason::UnequalScalars.into());
    }
    let places = 8 * a.len() + 1;
    if first.len() < places {
        return Err(Reason::FewPlaces.into());
    }
    if second.len() < places {
        return Err(Reason::FewPlaces.into());
    }
    let scalars = Scalars { order, a, b };
    let count = weigh(scalars);
    let doublings = count.top.saturating_sub(1);
    let needed = doublings + count.weight;
    if tape.len() < needed {
        return Err(Reason::ShortTape.into());
    }
    write(
        scalars,
        count.top,
        &mut first[..places],
        &mut second[..places],
        tape,
    );
    Ok(Planned {
        columns: count.weight as u16,
        top: count.top as u16,
        words: needed as u16,
        doublings: doublings as u16,
        additions: count.weight.saturating_sub(1) as u16,
    })
}
