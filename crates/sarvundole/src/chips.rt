// The calls for C for the chip without subtraction, as functions of the library.
ghost use Rattle.meaning.specs.SecondChip.{Translate, RunSecond};
ghost use Rattle.second.specs.Promises.{translated};
ghost use Rattle.sarvundole.specs.Runs.{ran};

use crate::exported::Ran;
use second::Translated;
use width::DigitSet;

pub fn sarvundole_translate(set: DigitSet, tape: &[u16], words: &mut [u16]) -> Translated
    ensures { Translate set.width set.largest tape.now words.old (translated result) words.new }
{
    second::translate(set, tape, words).into()
}

pub fn sarvundole_run_second(
    set: DigitSet,
    tape: &[u16],
    modulus: u32,
    base: u32,
    multiples: &mut [u32],
) -> Ran
    ensures { RunSecond set.width set.largest tape.now modulus base multiples.old (ran result) multiples.new }
{
    second::run_second(set, tape, modulus, base, multiples).into()
}
