// Calls 02 and 03: a set, scalar length 1, scalar, digits. They answer refusal 1, place 2, weight 2, top 2.
ghost use Rattle.std.specs.Prelude.{IfSome};
ghost use Rattle.asking.specs.Room.{Answered};

use asking::asked::{self, Frame, SetForm};
use asking::lent;
use asking::print::{self, Printer};
use digits::{Accepted, Tally};
use refusals::Refusal;
use scalar::Order;
use width::DigitSet;

// The answer to what follows the call's byte, and where it ends.
fn judged<F: Fn(DigitSet, Order, &[u8], &[i8]) -> Result<Accepted, Refusal>>(
    check: F,
    form: SetForm,
    order: Order,
    mut frame: Frame,
    out: &mut [u8; print::MOST],
) -> Option<usize>
    requires { F.IsAlwaysCallable check }
    ensures { IfSome result (λ end. Answered end) }
{
    let set = frame.set(form)?;
    let bytes = frame.short_count(asked::BYTES)?;
    let scalar = frame.bytes(bytes)?;
    let given = frame.rest(lent::PLACES)?;
    let digits = asked::digits(given);
    let tally = Tally::from(check(set, order, scalar, &digits[..given.len()]));
    let mut printer = Printer::over(out);
    printer.number(tally.refusal);
    printer.number(tally.place);
    printer.number(tally.weight);
    printer.number(tally.top);
    Some(printer.end())
}

// Any string that is worth the scalar.
pub fn answer(
    form: SetForm,
    order: Order,
    frame: Frame,
    out: &mut [u8; print::MOST],
) -> Option<usize>
    ensures { IfSome result (λ end. Answered end) }
{
    judged(judge::check, form, order, frame, out)
}

// One with no two digits too near.
pub fn answer_nonadjacent(
    form: SetForm,
    order: Order,
    frame: Frame,
    out: &mut [u8; print::MOST],
) -> Option<usize>
    ensures { IfSome result (λ end. Answered end) }
{
    judged(judge::check_nonadjacent, form, order, frame, out)
}
