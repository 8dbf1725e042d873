// Call 0B: form 1, a set, places lent 2, mark words lent 1, the group order's length 1, the group order, scalar. It answers as call 01.
ghost use Rattle.std.specs.Prelude.{IfSome};
ghost use Rattle.asking.specs.Room.{Answered};

use crate::recoding;
use asking::asked::{self, Frame, SetForm};
use asking::lent;
use asking::print::{self, Printer};
use scalar::Order;

// The answer to what follows the call's byte, and where it ends.
pub fn answer(
    form: SetForm,
    order: Order,
    mut frame: Frame,
    out: &mut [u8; print::MOST],
) -> Option<usize>
    ensures { IfSome result (λ end. Answered end) }
{
    let shape = frame.byte()?;
    let set = frame.set(form)?;
    let places = frame.count(lent::PLACES)?;
    let words = frame.short_count(lent::MARK_WORDS)?;
    let bytes = frame.short_count(asked::BYTES)?;
    let group = frame.bytes(bytes)?;
    let scalar = frame.rest(asked::BYTES)?;
    let mut digits = [lent::DIGIT; lent::PLACES];
    let digits = &mut digits[..places];
    let mut marks = [lent::MARKS; lent::MARK_WORDS];
    let marks = &mut marks[..words];
    let answer = recoder::recode_below(shape, set, order, scalar, group, digits, marks);
    let mut printer = Printer::over(out);
    recoding::put(answer.into(), digits, marks, &mut printer);
    Some(printer.end())
}
