// The step tape of a digit string: a word and the step that it decodes to, and the call `tape`.
#![tactic(auto)]

ghost use Rattle.std.specs.Prelude.{◌≡◌, ◌≢◌, List, [], ◌∷◌, ◌++◌, ◌+◌, ◌≤◌, ◌<◌, ℤ, pos, length, get_or, drop};
ghost use Rattle.std.proofs.lemmas.List.Edits.{sets};
ghost use Rattle.meaning.specs.Digits.{nonzero, top};
ghost use Rattle.meaning.specs.Words.{word, double, add, step_of, signed as signedBy, word_of};
ghost use Rattle.meaning.specs.Taping.{moves, tape_of, Tape};
ghost use Rattle.walk.specs.Steps.{Coded};
ghost use Rattle.tape.specs.Steps.{side, told, Moves};
ghost use Rattle.tape.specs.Places.{Lowered};
ghost use Rattle.tape.specs.Answers.{answered, Answers};

use refusals::{Reason, Refusal};
use width::{DigitSet, Width};

// ---- words
// How an entry is taken. A minus adds 1 to a word's code.
#[derive(Clone, Copy)]
pub enum Sign {
    Plus = 0,
    Minus = 1,
}

// An entry of the odd multiples, with a sign.
#[derive(Clone, Copy)]
pub struct Move {
    pub entry: u16,
    pub sign: Sign,
}

// What a word says; `Bad` where its code is none or a double has an entry. That is a step too and no `None`, as in the meaning (`step_of`): a walk goes on over it.
#[derive(Clone, Copy)]
pub enum Step {
    Double,
    Load(Move),
    Add(Move),
    Bad,
}

// What one more in a word's code adds to the word: the code stands over twelve bits of entry.
const CODE: u16 = 4096;

pub fn decode(word: u16) -> Step
    ensures { told result ≡ step_of word }
{
    let entry = word % CODE;
    let plus = Move {
        entry,
        sign: Sign::Plus,
    };
    let minus = Move {
        entry,
        sign: Sign::Minus,
    };
    match word / CODE {
        0 if entry == 0 => Step::Double,
        1 => Step::Load(plus),
        2 => Step::Load(minus),
        3 => Step::Add(plus),
        4 => Step::Add(minus),
        _ => Step::Bad,
    }
}

// The word of a move whose code with a plus is `code`: with a minus it is the next.
fn coded(code: u16, step: Move) -> u16
    requires { (code ≤ 3) × (step.entry < 4096) }
    ensures { result ≡ word (signedBy (side step.sign) code) step.entry }
{
    (code + step.sign as u16) * CODE + step.entry
}

// A bad step's word is bad too: no step has the code 15.
pub fn encode(step: Step) -> u16
    requires { Coded (told step) }
    ensures { result ≡ word_of (told step) }
{
    match step {
        Step::Double => 0,
        Step::Load(m) => coded(1, m),
        Step::Add(m) => coded(3, m),
        Step::Bad => 15 * CODE,
    }
}

// The move of a nonzero digit. There is one for 0 too, which means nothing: so a machine has no branch to guess.
pub fn move_of(digit: i8) -> Move
    ensures { Moves digit result }
{
    let entry = u16::from(digit.unsigned_abs().saturating_sub(1) / 2);
    let sign = if digit < 0 { Sign::Minus } else { Sign::Plus };
    Move { entry, sign }
}

// ---- the call
// Twice the first word that adds, and twice the first that subtracts.
const ADDS: u32 = 2 * 3 * 4096;

const SUBTRACTS: u32 = 2 * 4 * 4096;

// The word of a nonzero digit's addition, by its digit raised by 128. There is one for 0 too, which means nothing: so a machine has no branch to guess. Twice the word is
// halved once for both signs: `encode(Step::Add(move_of(digit)))` is plainer, but then a tape of 257 places takes 6,240 instructions, and half of 10,112 is the bar.
fn added(digit: i8) -> u16
    ensures { digit ≢ pos 0 → moves add digit ≡ result ∷ [] }
{
    let raised = (i32::from(digit) + 128).cast_unsigned();
    let twice = if raised < 128 {
        SUBTRACTS + 127 - raised
    } else {
        ADDS + raised - 129
    };
    (twice / 2) as u16
}

// The words of one place further down, from index `at` on. Gives the index after them. After the double of a 0 stands a word that means nothing:
// there the next place's double is written.
pub fn lower(digit: i8, at: usize, words: &mut [u16]) -> usize
    requires { at + 1 < length words.old }
    ensures { Lowered digit at words.old result words.new }
{
    words[at] = encode(Step::Double);
    words[at + 1] = added(digit);
    at + 1 + usize::from(digits::counted(digit))
}

// The words of place 0, after which nothing is written.
pub fn lowest(digit: i8, at: usize, words: &mut [u16])
    requires { at + 1 + nonzero digit ≤ length words.old }
    ensures { words.new ≡ sets words.old at (word_of double ∷ moves add digit) }
{
    words[at] = encode(Step::Double);
    if digit != 0 {
        words[at + 1] = added(digit);
    }
}

// A string whose digits are asked for one by one, wherever they come from.
pub trait Places {
    ghost string: { Self → List ℤ };

    fn digit(&self, i: usize) -> i8
        requires { i < length (string self.now) }
        ensures { result ≡ get_or (string self.now) i (pos 0) };
}

impl<'a> Places for &'a [i8] {
    ghost string = { λ digits. digits.now };

    fn digit(&self, i: usize) -> i8 {
        self[i]
    }
}

// Writes the words of a string whose top is `high`, from there down.
pub fn write<P: Places>(digits: &P, high: usize, words: &mut [u16])
    requires high_value { high ≡ top (P.string digits.now) }
    requires digits_in_bounds { length (tape_of (P.string digits.now)) ≤ length words.old }
    ensures { words.new ≡ tape_of (P.string digits.now) ++ drop (length (tape_of (P.string digits.now))) words.old }
{
    if high == 0 {
        return;
    }
    words[0] = encode(Step::Load(move_of(digits.digit(high - 1))));
    if high == 1 {
        return;
    }
    let mut at = 1;
    for i in (1..high - 1).rev() {
        at = lower(digits.digit(i), at, words);
    }
    lowest(digits.digit(0), at, words);
}

// What a tape comes to: its words, and the doublings and additions among them.
#[derive(Clone, Copy)]
pub struct Written {
    pub words: u16,
    pub doublings: u16,
    pub additions: u16,
}

// The same for C: a refusal's number and place, or the counts.
#[repr(C)]
#[derive(Clone, Copy)]
pub struct Taped {
    pub refusal: u8,
    pub place: u16,
    pub words: u16,
    pub doublings: u16,
    pub additions: u16,
}

impl From<Result<Written, Refusal>> for Taped {
    ghost from_gives = { Answers };

    fn from(answer: Result<Written, Refusal>) -> Taped {
        match answer {
            Ok(written) => Taped {
                refusal: 0,
                place: 0,
                words: written.words,
                doublings: written.doublings,
                additions: written.additions,
            },
            Err(refusal) => Taped {
                refusal: refusal.reason.into(),
                place: refusal.place,
                words: 0,
                doublings: 0,
                additions: 0,
            },
        }
    }
}

// The tape of a string: nothing is written before the string and the room for its words have been judged.
pub fn tape(set: DigitSet, digits: &[i8], words: &mut [u16]) -> Result<Written, Refusal>
    ensures { Tape set.width set.largest digits.now words.old (answered result) words.new }
{
    let width = set.tried()?;
    if Width::MOST_PLACES < digits.len() {
        return Err(Reason::LongString.into());
    }
    let count = digits::scan(width, digits).map_err(|place| Refusal {
        reason: Reason::BadDigit,
        place: place as u16,
    })?;
    let doublings = count.top.saturating_sub(1);
    let needed = doublings + count.weight;
    if words.len() < needed {
        return Err(Reason::ShortTape.into());
    }
    write(&digits, count.top, words);
    Ok(Written {
        words: needed as u16,
        doublings: doublings as u16,
        additions: count.weight.saturating_sub(1) as u16,
    })
}
