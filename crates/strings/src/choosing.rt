// Call 10: entries 4, scalar. It answers refusal 1, width 1, total 2.
ghost use Rattle.std.specs.Prelude.{IfSome};
ghost use Rattle.asking.specs.Room.{Answered};

use asking::asked::{self, Frame};
use asking::print::{self, Printer};
use choice::Chosen;
use scalar::Order;

// The answer to what follows the call's byte, and where it ends.
pub fn answer(order: Order, mut frame: Frame, out: &mut [u8; print::MOST]) -> Option<usize>
    ensures { IfSome result (λ end. Answered end) }
{
    let entries = frame.four()?;
    let scalar = frame.rest(asked::BYTES)?;
    let chosen = Chosen::from(choice::choose(order, scalar, entries));
    let mut printer = Printer::over(out);
    printer.number(chosen.refusal);
    printer.number(chosen.width);
    printer.number(chosen.total);
    Some(printer.end())
}
