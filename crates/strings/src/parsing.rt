// Call 0F: places lent 2, the line's characters. It answers refusal 1, stated number 1, weight 2, top 2, places 2, the digits.
ghost use Rattle.std.specs.Prelude.{IfSome};
ghost use Rattle.asking.specs.Room.{Answered};

use asking::asked::Frame;
use asking::lent;
use asking::print::{self, Printer};
use frames::Parsed;

// The answer to what follows the call's byte, and where it ends.
pub fn answer(mut frame: Frame, out: &mut [u8; print::MOST]) -> Option<usize>
    ensures { IfSome result (λ end. Answered end) }
{
    let places = frame.count(lent::PLACES)?;
    let line = frame.rest(lent::CHARACTERS)?;
    let mut digits = [lent::DIGIT; lent::PLACES];
    let digits = &mut digits[..places];
    let parsed = Parsed::from(frames::read(line, digits));
    let mut printer = Printer::over(out);
    printer.number(parsed.refusal);
    printer.number(parsed.stated);
    printer.number(parsed.weight);
    printer.number(parsed.top);
    printer.number(parsed.places);
    printer.numbers(digits);
    Some(printer.end())
}
