// The calls for C. A slice is a pointer and a count there, an answer and a digit set a struct by value, and an order of bytes a byte: 0 highest first, anything else lowest first. Each makes the library's call of its name, and promises what that promises.
ghost use Rattle.meaning.specs.Scalars.{order_of};
ghost use Rattle.meaning.specs.Recoding.{Recode, RecodeBelow};
ghost use Rattle.meaning.specs.Checking.{check_rules, nonadjacent_rules, Check};
ghost use Rattle.meaning.specs.Taping.{Tape};
ghost use Rattle.meaning.specs.Running.{Run};
ghost use Rattle.meaning.specs.Powering.{Powers};
ghost use Rattle.meaning.specs.Searching.{Search};
ghost use Rattle.meaning.specs.Choosing.{Choose};
ghost use Rattle.meaning.specs.Lighter.{Pick};
ghost use Rattle.meaning.specs.Frames.{Write, Read};
ghost use Rattle.digits.specs.Tallies.{told};
ghost use Rattle.tape.specs.Answers.{taped};
ghost use Rattle.search.specs.Answers.{told as searched};
ghost use Rattle.choice.specs.Answers.{told as chosen};
ghost use Rattle.lighter.specs.Answers.{picked};
ghost use Rattle.frames.specs.Told.{framed, parsed};
ghost use Rattle.reader.specs.States.{After};
ghost use Rattle.sarvundole.specs.Runs.{ran};
ghost use Rattle.sarvundole.specs.Reads.{Reads};
ghost use Rattle.sarvundole.specs.Kept.{state_of};
ghost use Rattle.sarvundole.specs.Steps.{Steps};
ghost use Rattle.sarvundole.specs.Versions.{numbered};

use sarvundole::exported::{Ran, Reader, Reading, Stepped};
use sarvundole::{Chosen, DigitSet, Framed, Parsed, Picked, Searched, Tally, Taped};

#[unsafe(no_mangle)]
pub extern "C" fn sarvundole_recode(
    form: u8,
    set: DigitSet,
    order: u8,
    scalar: &[u8],
    digits: &mut [i8],
    marks: &mut [u64],
) -> Tally
    ensures { Recode form set.width set.largest (order_of order) scalar.now digits.old marks.old (told result) digits.new marks.new }
{
    sarvundole::exported::sarvundole_recode(form, set, order, scalar, digits, marks)
}

#[unsafe(no_mangle)]
pub extern "C" fn sarvundole_recode_below(
    form: u8,
    set: DigitSet,
    order: u8,
    scalar: &[u8],
    group: &[u8],
    digits: &mut [i8],
    marks: &mut [u64],
) -> Tally
    ensures { RecodeBelow form set.width set.largest (order_of order) scalar.now group.now digits.old marks.old (told result) digits.new marks.new }
{
    sarvundole::exported::sarvundole_recode_below(form, set, order, scalar, group, digits, marks)
}

#[unsafe(no_mangle)]
pub extern "C" fn sarvundole_check(set: DigitSet, order: u8, scalar: &[u8], digits: &[i8]) -> Tally
    ensures { Check (check_rules set.width set.largest (order_of order) scalar.now digits.now) digits.now (told result) }
{
    sarvundole::exported::sarvundole_check(set, order, scalar, digits)
}

#[unsafe(no_mangle)]
pub extern "C" fn sarvundole_check_nonadjacent(
    set: DigitSet,
    order: u8,
    scalar: &[u8],
    digits: &[i8],
) -> Tally
    ensures { Check (nonadjacent_rules set.width set.largest (order_of order) scalar.now digits.now) digits.now (told result) }
{
    sarvundole::exported::sarvundole_check_nonadjacent(set, order, scalar, digits)
}

#[unsafe(no_mangle)]
pub extern "C" fn sarvundole_tape(set: DigitSet, digits: &[i8], words: &mut [u16]) -> Taped
    ensures { Tape set.width set.largest digits.now words.old (taped result) words.new }
{
    sarvundole::exported::sarvundole_tape(set, digits, words)
}

#[unsafe(no_mangle)]
pub extern "C" fn sarvundole_run(
    set: DigitSet,
    tape: &[u16],
    modulus: u32,
    base: u32,
    multiples: &mut [u32],
) -> Ran
    ensures { Run set.width set.largest tape.now modulus base multiples.old (ran result) multiples.new }
{
    sarvundole::exported::sarvundole_run(set, tape, modulus, base, multiples)
}

#[unsafe(no_mangle)]
pub extern "C" fn sarvundole_run_powers(
    set: DigitSet,
    tape: &[u16],
    modulus: u32,
    base: u32,
    inverse: u32,
    powers: &mut [u32],
    inverses: &mut [u32],
) -> Ran
    ensures { Powers set.width set.largest tape.now modulus base inverse powers.old inverses.old (ran result) powers.new inverses.new }
{
    sarvundole::exported::sarvundole_run_powers(set, tape, modulus, base, inverse, powers, inverses)
}

#[unsafe(no_mangle)]
pub extern "C" fn sarvundole_read_at(width: u8, order: u8, scalar: &[u8], calls: u16) -> Reading
    ensures { Reads width (order_of order) scalar.now calls result.refusal result.given result.digit }
{
    sarvundole::exported::sarvundole_read_at(width, order, scalar, calls)
}

#[unsafe(no_mangle)]
pub extern "C" fn sarvundole_reader_start(width: u8, order: u8, scalar: &[u8]) -> Reader
    ensures { After width (order_of order) scalar.now 0 (state_of result) }
{
    sarvundole::exported::sarvundole_reader_start(width, order, scalar)
}

#[unsafe(no_mangle)]
pub extern "C" fn sarvundole_reader_next(scalar: &[u8], reader: Reader) -> Stepped
    ensures { Steps scalar.now (state_of reader) (state_of result.reader) result.given result.digit }
{
    sarvundole::exported::sarvundole_reader_next(scalar, reader)
}

#[unsafe(no_mangle)]
pub extern "C" fn sarvundole_search(number: u32, width: u8) -> Searched
    ensures { Search number width (searched result) }
{
    sarvundole::exported::sarvundole_search(number, width)
}

#[unsafe(no_mangle)]
pub extern "C" fn sarvundole_choose(order: u8, scalar: &[u8], entries: u32) -> Chosen
    ensures { Choose (order_of order) scalar.now entries (chosen result) }
{
    sarvundole::exported::sarvundole_choose(order, scalar, entries)
}

#[unsafe(no_mangle)]
pub extern "C" fn sarvundole_lighter(
    width: u8,
    order: u8,
    scalar: &[u8],
    first: &[i8],
    second: &[i8],
) -> Picked
    ensures { Pick width (order_of order) scalar.now first.now second.now (picked result) }
{
    sarvundole::exported::sarvundole_lighter(width, order, scalar, first, second)
}

#[unsafe(no_mangle)]
pub extern "C" fn sarvundole_write(number: u8, digits: &[i8], line: &mut [u8]) -> Framed
    ensures { Write (numbered number) digits.now line.old (framed result) line.new }
{
    sarvundole::exported::sarvundole_write(number, digits, line)
}

#[unsafe(no_mangle)]
pub extern "C" fn sarvundole_read(line: &[u8], digits: &mut [i8]) -> Parsed
    ensures { Read line.now digits.old (parsed result) digits.new }
{
    sarvundole::exported::sarvundole_read(line, digits)
}
