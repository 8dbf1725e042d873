// The calls for C, as functions of the library: `sarvundole_c` exports each under its name. An answer and a digit set are structs that C can have, and an order of bytes is a byte: 0 highest first, anything else lowest first. Each promises what the call that it makes promises.
ghost use Rattle.std.specs.Prelude.{◌≡◌};
ghost use Rattle.meaning.specs.Scalars.{order_of};
ghost use Rattle.meaning.specs.Recoding.{Recode, RecodeBelow};
ghost use Rattle.meaning.specs.Checking.{check_rules, nonadjacent_rules, Check};
ghost use Rattle.meaning.specs.Taping.{Tape};
ghost use Rattle.meaning.specs.Running.{Run};
ghost use Rattle.meaning.specs.Powering.{Powers};
ghost use Rattle.meaning.specs.Searching.{Search};
ghost use Rattle.meaning.specs.Choosing.{Choose};
ghost use Rattle.meaning.specs.Lighter.{Pick};
ghost use Rattle.meaning.specs.Frames.{Write, Read};
ghost use Rattle.digits.specs.Tallies.{told};
ghost use Rattle.tape.specs.Answers.{taped};
ghost use Rattle.search.specs.Answers.{told as searched};
ghost use Rattle.choice.specs.Answers.{told as chosen};
ghost use Rattle.lighter.specs.Answers.{picked};
ghost use Rattle.frames.specs.Told.{version_of, framed, parsed};
ghost use Rattle.reader.specs.States.{After};
ghost use Rattle.sarvundole.specs.Runs.{ran, Answers};
ghost use Rattle.sarvundole.specs.Reads.{Tells, Reads};
ghost use Rattle.sarvundole.specs.Kept.{state_of, Small};
ghost use Rattle.sarvundole.specs.Steps.{Steps};
ghost use Rattle.sarvundole.specs.Versions.{numbered};

use choice::Chosen;
use digits::Tally;
use frames::{Framed, Parsed, Version};
use lighter::Picked;
use reader::State;
use refusals::Refusal;
use run::Cost;
use search::Searched;
use tape::Taped;
use width::DigitSet;

// The run's outcome in plain fields: the refusal and its place, or the residue.
#[repr(C)]
#[derive(Clone, Copy)]
pub struct Ran {
    pub refusal: u8,
    pub place: u16,
    pub residue: u32,
    pub doublings: u16,
    pub additions: u16,
    pub cost: Cost,
}

// `given` is 1 where there is a digit, and 0 where the reader is done.
#[repr(C)]
#[derive(Clone, Copy)]
pub struct Reading {
    pub refusal: u8,
    pub given: u8,
    pub digit: i8,
}

// A reader's state as a caller keeps it: small enough to be passed in registers.
#[repr(C)]
#[derive(Clone, Copy)]
pub struct Reader {
    pub place: u16,
    pub spot: u16,
    pub floor: u16,
    pub width: u8,
    pub pending: i8,
    pub refusal: u8,
    pub order: u8,
}

// A reader after one call more, and what the call gave.
#[repr(C)]
#[derive(Clone, Copy)]
pub struct Stepped {
    pub reader: Reader,
    pub given: u8,
    pub digit: i8,
}

pub fn sarvundole_recode(
    form: u8,
    set: DigitSet,
    order: u8,
    scalar: &[u8],
    digits: &mut [i8],
    marks: &mut [u64],
) -> Tally
    ensures { Recode form set.width set.largest (order_of order) scalar.now digits.old marks.old (told result) digits.new marks.new }
{
    recoder::recode(form, set, order.into(), scalar, digits, marks).into()
}

pub fn sarvundole_recode_below(
    form: u8,
    set: DigitSet,
    order: u8,
    scalar: &[u8],
    group: &[u8],
    digits: &mut [i8],
    marks: &mut [u64],
) -> Tally
    ensures { RecodeBelow form set.width set.largest (order_of order) scalar.now group.now digits.old marks.old (told result) digits.new marks.new }
{
    recoder::recode_below(form, set, order.into(), scalar, group, digits, marks).into()
}

pub fn sarvundole_check(set: DigitSet, order: u8, scalar: &[u8], digits: &[i8]) -> Tally
    ensures { Check (check_rules set.width set.largest (order_of order) scalar.now digits.now) digits.now (told result) }
{
    judge::check(set, order.into(), scalar, digits).into()
}

pub fn sarvundole_check_nonadjacent(set: DigitSet, order: u8, scalar: &[u8], digits: &[i8]) -> Tally
    ensures { Check (nonadjacent_rules set.width set.largest (order_of order) scalar.now digits.now) digits.now (told result) }
{
    judge::check_nonadjacent(set, order.into(), scalar, digits).into()
}

pub fn sarvundole_tape(set: DigitSet, digits: &[i8], words: &mut [u16]) -> Taped
    ensures { Tape set.width set.largest digits.now words.old (taped result) words.new }
{
    tape::tape(set, digits, words).into()
}

impl From<Result<run::Ran, Refusal>> for Ran {
    ghost from_gives = { Answers };

    fn from(answer: Result<run::Ran, Refusal>) -> Ran {
        match answer {
            Ok(ran) => Ran {
                refusal: 0,
                place: 0,
                residue: ran.residue,
                doublings: ran.doublings,
                additions: ran.additions,
                cost: ran.cost,
            },
            Err(refusal) => Ran {
                refusal: refusal.reason.into(),
                place: refusal.place,
                residue: 0,
                doublings: 0,
                additions: 0,
                cost: Cost {
                    doublings: 0,
                    additions: 0,
                },
            },
        }
    }
}

pub fn sarvundole_run(
    set: DigitSet,
    tape: &[u16],
    modulus: u32,
    base: u32,
    multiples: &mut [u32],
) -> Ran
    ensures { Run set.width set.largest tape.now modulus base multiples.old (ran result) multiples.new }
{
    run::run(set, tape, modulus, base, multiples).into()
}

pub fn sarvundole_run_powers(
    set: DigitSet,
    tape: &[u16],
    modulus: u32,
    base: u32,
    inverse: u32,
    powers: &mut [u32],
    inverses: &mut [u32],
) -> Ran
    ensures { Powers set.width set.largest tape.now modulus base inverse powers.old inverses.old (ran result) powers.new inverses.new }
{
    powers::run_powers(set, tape, modulus, base, inverse, powers, inverses).into()
}

// What a call of the reader gives, in plain numbers: 1 and the digit, or 0 and 0.
fn plain(next: Option<i8>) -> (u8, i8)
    ensures { Tells next result.0 result.1 }
{
    next.map_or((0, 0), |digit| (1, digit))
}

pub fn sarvundole_read_at(width: u8, order: u8, scalar: &[u8], calls: u16) -> Reading
    ensures { Reads width (order_of order) scalar.now calls result.refusal result.given result.digit }
{
    let read = reader::read_at(width, order.into(), scalar, calls);
    let (given, digit) = plain(read.next);
    Reading {
        refusal: read.refusal,
        given,
        digit,
    }
}

// The state of a reader that is kept.
fn state(reader: Reader) -> State
    ensures { (result ≡ state_of reader) × Small result }
{
    State {
        place: usize::from(reader.place),
        width: reader.width,
        pending: reader.pending,
        spot: usize::from(reader.spot),
        floor: usize::from(reader.floor),
        refusal: reader.refusal,
        order: reader.order,
    }
}

// The reader to keep for a state.
fn kept(state: State) -> Reader
    requires { Small state }
    ensures { state_of result ≡ state }
{
    Reader {
        place: state.place as u16,
        spot: state.spot as u16,
        floor: state.floor as u16,
        width: state.width,
        pending: state.pending,
        refusal: state.refusal,
        order: state.order,
    }
}

pub fn sarvundole_reader_start(width: u8, order: u8, scalar: &[u8]) -> Reader
    ensures { After width (order_of order) scalar.now 0 (state_of result) }
{
    kept(reader::start(width, order.into(), scalar))
}

pub fn sarvundole_reader_next(scalar: &[u8], reader: Reader) -> Stepped
    ensures { Steps scalar.now (state_of reader) (state_of result.reader) result.given result.digit }
{
    let before = state(reader);
    let taken = reader::call(scalar, before);
    let after = kept(reader::moved(before, taken));
    let (given, digit) = plain(taken.next);
    Stepped {
        reader: after,
        given,
        digit,
    }
}

pub fn sarvundole_search(number: u32, width: u8) -> Searched
    ensures { Search number width (searched result) }
{
    search::search(number, width).into()
}

// ---- the choice of a width, and the lighter of two strings
pub fn sarvundole_choose(order: u8, scalar: &[u8], entries: u32) -> Chosen
    ensures { Choose (order_of order) scalar.now entries (chosen result) }
{
    choice::choose(order.into(), scalar, entries).into()
}

// C has the part by its string and its count of places.
pub fn sarvundole_lighter(
    width: u8,
    order: u8,
    scalar: &[u8],
    first: &[i8],
    second: &[i8],
) -> Picked
    ensures { Pick width (order_of order) scalar.now first.now second.now (picked result) }
{
    lighter::pick(width, order.into(), scalar, first, second).into()
}

// ---- frames
// The version of a byte: 1 is version 1, and anything else version 2.
#[tactic(auto, unfolding(crate::specs::Versions::numbered))]
fn version(number: u8) -> Version
    ensures { version_of result ≡ numbered number }
{
    if number == 1 {
        Version::Plain
    } else {
        Version::Sparse
    }
}

pub fn sarvundole_write(number: u8, digits: &[i8], line: &mut [u8]) -> Framed
    ensures { Write (numbered number) digits.now line.old (framed result) line.new }
{
    frames::write(version(number), digits, line).into()
}

pub fn sarvundole_read(line: &[u8], digits: &mut [i8]) -> Parsed
    ensures { Read line.now digits.old (parsed result) digits.new }
{
    frames::read(line, digits).into()
}
