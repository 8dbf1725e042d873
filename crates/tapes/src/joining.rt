// Call 09: places lent for a 2, for b 2, words lent 2, length of a 1, a, b. It answers refusal 1, place 2, columns 2, top 2, words 2, doublings 2, additions 2, row a, row b,
// the words lent.
ghost use Rattle.std.specs.Prelude.{IfSome};
ghost use Rattle.asking.specs.Room.{Answered};

use asking::asked::{self, Frame};
use asking::lent;
use asking::print::{self, Printer};
use joint::Joined;
use scalar::Order;

// The answer to what follows the call's byte, and where it ends.
pub fn answer(order: Order, mut frame: Frame, out: &mut [u8; print::MOST]) -> Option<usize>
    ensures { IfSome result (λ end. Answered end) }
{
    let places = frame.count(lent::PLACES)?;
    let others = frame.count(lent::PLACES)?;
    let room = frame.count(lent::WORDS)?;
    let bytes = frame.short_count(asked::BYTES)?;
    let a = frame.bytes(bytes)?;
    let b = frame.rest(asked::BYTES)?;
    let mut first = [lent::DIGIT; lent::PLACES];
    let first = &mut first[..places];
    let mut second = [lent::DIGIT; lent::PLACES];
    let second = &mut second[..others];
    let mut words = [lent::WORD; lent::WORDS];
    let words = &mut words[..room];
    let joined = Joined::from(joint::joint(order, a, b, first, second, words));
    let mut printer = Printer::over(out);
    printer.number(joined.refusal);
    printer.number(joined.place);
    printer.number(joined.columns);
    printer.number(joined.top);
    printer.number(joined.words);
    printer.number(joined.doublings);
    printer.number(joined.additions);
    printer.numbers(first);
    printer.numbers(second);
    printer.numbers(words);
    Some(printer.end())
}
