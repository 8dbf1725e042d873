// Call 04: a set, words lent 2, digits. It answers refusal 1, place 2, words 2, doublings 2, additions 2, the words lent.
ghost use Rattle.std.specs.Prelude.{IfSome};
ghost use Rattle.asking.specs.Room.{Answered};

use asking::asked::{self, Frame, SetForm};
use asking::lent;
use asking::print::{self, Printer};
use tape::Taped;

// The answer to what follows the call's byte, and where it ends.
pub fn answer(form: SetForm, mut frame: Frame, out: &mut [u8; print::MOST]) -> Option<usize>
    ensures { IfSome result (λ end. Answered end) }
{
    let set = frame.set(form)?;
    let room = frame.count(lent::WORDS)?;
    let given = frame.rest(lent::PLACES)?;
    let digits = asked::digits(given);
    let mut words = [lent::WORD; lent::WORDS];
    let words = &mut words[..room];
    let taped = Taped::from(tape::tape(set, &digits[..given.len()], words));
    let mut printer = Printer::over(out);
    printer.number(taped.refusal);
    printer.number(taped.place);
    printer.number(taped.words);
    printer.number(taped.doublings);
    printer.number(taped.additions);
    printer.numbers(words);
    Some(printer.end())
}
