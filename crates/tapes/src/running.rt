// Calls 05 and 0D: a set, multiples lent 2, modulus 4, base 4, tape words. They answer refusal 1, place 2, residue 4, doublings 2, additions 2, cost additions 2, cost
// doublings 2, the multiples lent.
ghost use Rattle.std.specs.Prelude.{IfSome};
ghost use Rattle.asking.specs.Room.{Answered};
ghost use Rattle.asking.specs.Printing.{Room, Wrote};

use asking::asked::{self, Frame, SetForm};
use asking::lent;
use asking::print::{self, Printer};
use refusals::Refusal;
use run::Ran;
use width::DigitSet;

// What a run returns: 0 in every field that it does not have.
pub fn put(ran: Result<Ran, Refusal>, printer: &mut Printer)
    requires { Room printer.old 30 }
    ensures { Wrote printer.old printer.new 30 }
{
    match ran {
        Ok(ran) => {
            printer.number(0u8);
            printer.number(0u16);
            printer.number(ran.residue);
            printer.numbers(&[
                ran.doublings,
                ran.additions,
                ran.cost.additions,
                ran.cost.doublings,
            ]);
        }
        Err(refusal) => {
            printer.number(u8::from(refusal.reason));
            printer.number(refusal.place);
            printer.number(0u32);
            printer.numbers(&[0u16; 4]);
        }
    }
}

// The answer to what follows the call's byte, and where it ends.
fn ran<F: Fn(DigitSet, &[u16], u32, u32, &mut [u32]) -> Result<Ran, Refusal>>(
    run: F,
    form: SetForm,
    mut frame: Frame,
    out: &mut [u8; print::MOST],
) -> Option<usize>
    requires { F.IsAlwaysCallable run }
    ensures { IfSome result (λ end. Answered end) }
{
    let set = frame.set(form)?;
    let room = frame.count(lent::MULTIPLES)?;
    let modulus = frame.four()?;
    let base = frame.four()?;
    let given = frame.pairs(lent::WORDS)?;
    let tape = asked::words(given);
    let mut multiples = [lent::MULTIPLE; lent::MULTIPLES];
    let multiples = &mut multiples[..room];
    let ran = run(set, &tape[..given.len()], modulus, base, multiples);
    let mut printer = Printer::over(out);
    put(ran, &mut printer);
    printer.numbers(multiples);
    Some(printer.end())
}

// The words of the first chip's tape.
pub fn answer(form: SetForm, frame: Frame, out: &mut [u8; print::MOST]) -> Option<usize>
    ensures { IfSome result (λ end. Answered end) }
{
    ran(run::run, form, frame, out)
}

// Those of the chip without subtraction.
pub fn answer_second(form: SetForm, frame: Frame, out: &mut [u8; print::MOST]) -> Option<usize>
    ensures { IfSome result (λ end. Answered end) }
{
    ran(second::run_second, form, frame, out)
}
