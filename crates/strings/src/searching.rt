// Call 07: width 1, number 4, and nothing after them. It answers refusal 1, weight 1.
ghost use Rattle.std.specs.Prelude.{IfSome};
ghost use Rattle.asking.specs.Room.{Answered};

use asking::asked::Frame;
use asking::print::{self, Printer};
use search::Searched;

// The answer to what follows the call's byte, and where it ends.
pub fn answer(mut frame: Frame, out: &mut [u8; print::MOST]) -> Option<usize>
    ensures { IfSome result (λ end. Answered end) }
{
    let width = frame.byte()?;
    let number = frame.four()?;
    frame.rest(0)?;
    let searched = Searched::from(search::search(number, width));
    let mut printer = Printer::over(out);
    printer.number(searched.refusal);
    printer.number(searched.weight);
    Some(printer.end())
}
