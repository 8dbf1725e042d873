// Call 0A: multiples lent 2, modulus 4, g 4, h 4, tape words. It answers as call 05.
ghost use Rattle.std.specs.Prelude.{IfSome};
ghost use Rattle.asking.specs.Room.{Answered};

use crate::running;
use asking::asked::{self, Frame};
use asking::lent;
use asking::print::{self, Printer};

// The answer to what follows the call's byte, and where it ends.
pub fn answer(mut frame: Frame, out: &mut [u8; print::MOST]) -> Option<usize>
    ensures { IfSome result (λ end. Answered end) }
{
    let room = frame.count(lent::MULTIPLES)?;
    let modulus = frame.four()?;
    let first = frame.four()?;
    let second = frame.four()?;
    let given = frame.pairs(lent::WORDS)?;
    let tape = asked::words(given);
    let mut multiples = [lent::MULTIPLE; lent::MULTIPLES];
    let multiples = &mut multiples[..room];
    let ran = joined::run_joint(&tape[..given.len()], modulus, first, second, multiples);
    let mut printer = Printer::over(out);
    running::put(ran, &mut printer);
    printer.numbers(multiples);
    Some(printer.end())
}
