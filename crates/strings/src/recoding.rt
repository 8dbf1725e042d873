// Call 01: form 1, a set, places lent 2, mark words lent 1, scalar. It answers refusal 1, place 2, weight 2, top 2, digits, marks.
ghost use Rattle.std.specs.Prelude.{◌+◌, ◌*◌, length, IfSome};
ghost use Rattle.asking.specs.Room.{Answered};
ghost use Rattle.asking.specs.Printing.{Room, Wrote};

use asking::asked::{self, Frame, SetForm};
use asking::lent;
use asking::print::{self, Printer};
use digits::Tally;
use scalar::Order;

// An answer: its fields, and both buffers.
pub fn put(tally: Tally, digits: &[i8], marks: &[u64], printer: &mut Printer)
    requires { Room printer.old (14 + 2 * length digits.now + 16 * length marks.now) }
    ensures { Wrote printer.old printer.new (14 + 2 * length digits.now + 16 * length marks.now) }
{
    printer.number(tally.refusal);
    printer.number(tally.place);
    printer.number(tally.weight);
    printer.number(tally.top);
    printer.numbers(digits);
    printer.numbers(marks);
}

// The answer to what follows the call's byte, and where it ends.
pub fn answer(
    form: SetForm,
    order: Order,
    mut frame: Frame,
    out: &mut [u8; print::MOST],
) -> Option<usize>
    ensures { IfSome result (λ end. Answered end) }
{
    let shape = frame.byte()?;
    let set = frame.set(form)?;
    let places = frame.count(lent::PLACES)?;
    let words = frame.short_count(lent::MARK_WORDS)?;
    let scalar = frame.rest(asked::BYTES)?;
    let mut digits = [lent::DIGIT; lent::PLACES];
    let digits = &mut digits[..places];
    let mut marks = [lent::MARKS; lent::MARK_WORDS];
    let marks = &mut marks[..words];
    let answer = recoder::recode(shape, set, order, scalar, digits, marks);
    let mut printer = Printer::over(out);
    put(answer.into(), digits, marks, &mut printer);
    Some(printer.end())
}
