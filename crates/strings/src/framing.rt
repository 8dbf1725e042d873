// Call 0E: version 1, characters lent 2, digits. It answers refusal 1, length 2, the line's buffer.
ghost use Rattle.std.specs.Prelude.{IfSome};
ghost use Rattle.asking.specs.Room.{Answered};

use asking::asked::{self, Frame};
use asking::lent;
use asking::print::{self, Printer};
use frames::{Framed, Version};

// The answer to what follows the call's byte, and where it ends.
pub fn answer(mut frame: Frame, out: &mut [u8; print::MOST]) -> Option<usize>
    ensures { IfSome result (λ end. Answered end) }
{
    let version = match frame.byte()? {
        1 => Version::Plain,
        2 => Version::Sparse,
        _ => return None,
    };
    let characters = frame.count(lent::CHARACTERS)?;
    let given = frame.rest(lent::PLACES)?;
    let digits = asked::digits(given);
    let mut line = [lent::CHARACTER; lent::CHARACTERS];
    let line = &mut line[..characters];
    let framed = Framed::from(frames::write(version, &digits[..given.len()], line));
    let mut printer = Printer::over(out);
    printer.number(framed.refusal);
    printer.number(framed.length);
    printer.numbers(line);
    Some(printer.end())
}
