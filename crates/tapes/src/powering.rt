// Call 08: a set, powers lent 2, inverse powers lent 2, modulus 4, base 4, inverse 4, tape words. It answers as call 05, then the powers and the inverse powers lent.
ghost use Rattle.std.specs.Prelude.{IfSome};
ghost use Rattle.asking.specs.Room.{Answered};

use crate::running;
use asking::asked::{self, Frame, SetForm};
use asking::lent;
use asking::print::{self, Printer};

// The answer to what follows the call's byte, and where it ends.
pub fn answer(form: SetForm, mut frame: Frame, out: &mut [u8; print::MOST]) -> Option<usize>
    ensures { IfSome result (λ end. Answered end) }
{
    let set = frame.set(form)?;
    let room = frame.count(lent::MULTIPLES)?;
    let others = frame.count(lent::MULTIPLES)?;
    let modulus = frame.four()?;
    let base = frame.four()?;
    let inverse = frame.four()?;
    let given = frame.pairs(lent::WORDS)?;
    let tape = asked::words(given);
    let mut powers = [lent::MULTIPLE; lent::MULTIPLES];
    let powers = &mut powers[..room];
    let mut inverses = [lent::INVERSE; lent::MULTIPLES];
    let inverses = &mut inverses[..others];
    let ran = powers::run_powers(
        set,
        &tape[..given.len()],
        modulus,
        base,
        inverse,
        powers,
        inverses,
    );
    let mut printer = Printer::over(out);
    running::put(ran, &mut printer);
    printer.numbers(powers);
    printer.numbers(inverses);
    Some(printer.end())
}
