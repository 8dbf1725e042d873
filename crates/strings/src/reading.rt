// Call 06: width 1, calls 2, scalar. It answers refusal 1, then for each call 01 and the digit, or 0000 for done.
ghost use Rattle.std.specs.Prelude.{IfSome};
ghost use Rattle.asking.specs.Room.{Answered};
ghost use Rattle.asking.specs.Printing.{Room, Wrote};

use asking::asked::{self, Frame};
use asking::print::{self, Printer};
use reader::Reader;
use scalar::Order;

// Where there is a digit, and which.
fn put(next: Option<i8>, printer: &mut Printer)
    requires { Room printer.old 4 }
    ensures { Wrote printer.old printer.new 4 }
{
    match next {
        Some(digit) => {
            printer.number(1u8);
            printer.number(digit);
        }
        None => printer.number(0u16),
    }
}

// The answer to what follows the call's byte, and where it ends.
pub fn answer(order: Order, mut frame: Frame, out: &mut [u8; print::MOST]) -> Option<usize>
    ensures { IfSome result (λ end. Answered end) }
{
    let width = frame.byte()?;
    let calls = frame.count(asked::CALLS)?;
    let scalar = frame.rest(asked::BYTES)?;
    let mut reader = Reader::new(width, order, scalar);
    let mut printer = Printer::over(out);
    printer.number(reader.state.refusal);
    for _ in 0..calls {
        put(reader.next(), &mut printer);
    }
    Some(printer.end())
}
