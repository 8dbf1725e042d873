// Call 11: width 1, scalar length 1, scalar, the first string's length 2, the first string, the second. It answers refusal 1, places of the part 2, the part.
ghost use Rattle.std.specs.Prelude.{IfSome};
ghost use Rattle.asking.specs.Room.{Answered};

use asking::asked::{self, Frame};
use asking::lent;
use asking::print::{self, Printer};
use scalar::Order;

// The answer to what follows the call's byte, and where it ends.
pub fn answer(order: Order, mut frame: Frame, out: &mut [u8; print::MOST]) -> Option<usize>
    ensures { IfSome result (λ end. Answered end) }
{
    let width = frame.byte()?;
    let bytes = frame.short_count(asked::BYTES)?;
    let scalar = frame.bytes(bytes)?;
    let places = frame.count(lent::PLACES)?;
    let given = frame.bytes(places)?;
    let other = frame.rest(lent::PLACES)?;
    let first = asked::digits(given);
    let first = &first[..given.len()];
    let second = asked::digits(other);
    let second = &second[..other.len()];
    let refusal = lighter::lighter_refusal(width, order, scalar, first, second);
    let part = lighter::lighter(width, order, scalar, first, second);
    let mut printer = Printer::over(out);
    printer.number(refusal);
    printer.number(part.len() as u16);
    printer.numbers(part);
    Some(printer.end())
}
