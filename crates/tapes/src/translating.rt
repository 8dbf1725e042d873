// Call 0C: a set, words lent 2, tape words. It answers refusal 1, place 2, words 2, the words lent.
ghost use Rattle.std.specs.Prelude.{IfSome};
ghost use Rattle.asking.specs.Room.{Answered};

use asking::asked::{self, Frame, SetForm};
use asking::lent;
use asking::print::{self, Printer};
use second::Translated;

// The answer to what follows the call's byte, and where it ends.
pub fn answer(form: SetForm, mut frame: Frame, out: &mut [u8; print::MOST]) -> Option<usize>
    ensures { IfSome result (λ end. Answered end) }
{
    let set = frame.set(form)?;
    let room = frame.count(lent::WORDS)?;
    let given = frame.pairs(lent::WORDS)?;
    let tape = asked::words(given);
    let mut words = [lent::WORD; lent::WORDS];
    let words = &mut words[..room];
    let translated = Translated::from(second::translate(set, &tape[..given.len()], words));
    let mut printer = Printer::over(out);
    printer.number(translated.refusal);
    printer.number(translated.place);
    printer.number(translated.words);
    printer.numbers(words);
    Some(printer.end())
}
