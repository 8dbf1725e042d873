// The answer to a line: its bytes are read, the call that they name is made, and what it answers is printed.
ghost use Rattle.std.specs.Prelude.{◌≤◌, IfSome};
ghost use Rattle.asking.specs.Room.{most_answer, Answered};

use asking::asked::{Frame, SetForm};
use asking::print::{self, Printer};
use scalar::Order;
use strings::{
    bounding, checking, choosing, framing, parsing, reading, recoding, searching, weighing,
};
use tapes::{joining, jointly, powering, running, taping, translating};

// What a line that is no frame is answered.
const NO_FRAME: u8 = 0xFF;

// What is added to a call's byte where the frame's scalars are lowest byte first, and where the largest digit of its set follows the width.
const LOWEST_FIRST: u8 = 0x80;

const LARGEST: u8 = 0x40;

// The answer of the call that a frame names, where it names one.
fn call(bytes: &[u8], out: &mut [u8; print::MOST]) -> Option<usize>
    ensures { IfSome result (λ end. Answered end) }
{
    let mut frame = Frame::over(bytes);
    let byte = frame.byte()?;
    let order = if byte & LOWEST_FIRST == 0 {
        Order::HighestFirst
    } else {
        Order::LowestFirst
    };
    let form = if byte & LARGEST == 0 {
        SetForm::Whole
    } else {
        SetForm::Between
    };
    match (byte & !(LOWEST_FIRST | LARGEST), order, form) {
        (0x01, _, _) => recoding::answer(form, order, frame, out),
        (0x02, _, _) => checking::answer(form, order, frame, out),
        (0x03, _, _) => checking::answer_nonadjacent(form, order, frame, out),
        (0x04, Order::HighestFirst, _) => taping::answer(form, frame, out),
        (0x05, Order::HighestFirst, _) => running::answer(form, frame, out),
        (0x06, _, SetForm::Whole) => reading::answer(order, frame, out),
        (0x07, Order::HighestFirst, SetForm::Whole) => searching::answer(frame, out),
        (0x08, Order::HighestFirst, _) => powering::answer(form, frame, out),
        (0x09, _, SetForm::Whole) => joining::answer(order, frame, out),
        (0x0A, Order::HighestFirst, SetForm::Whole) => jointly::answer(frame, out),
        (0x0B, _, _) => bounding::answer(form, order, frame, out),
        (0x0C, Order::HighestFirst, _) => translating::answer(form, frame, out),
        (0x0D, Order::HighestFirst, _) => running::answer_second(form, frame, out),
        (0x0E, Order::HighestFirst, SetForm::Whole) => framing::answer(frame, out),
        (0x0F, Order::HighestFirst, SetForm::Whole) => parsing::answer(frame, out),
        (0x10, _, SetForm::Whole) => choosing::answer(order, frame, out),
        (0x11, _, SetForm::Whole) => weighing::answer(order, frame, out),
        _ => None,
    }
}

// The answer to a frame, or what is answered where it is none.
fn told(bytes: &[u8], out: &mut [u8; print::MOST]) -> usize
    ensures { Answered result }
{
    if let Some(end) = call(bytes, out) {
        return end;
    }
    let mut printer = Printer::over(out);
    printer.number(NO_FRAME);
    printer.end()
}

// The answer to a line at the front of `out`, with its line feed, and how long it is. The line's bytes are put to `frame`.
pub fn answer(line: &[u8], frame: &mut [u8], out: &mut [u8; print::MOST]) -> usize
    ensures { result ≤ most_answer }
{
    let count = hexadecimal::read_pairs(line, frame);
    let end = told(&frame[..count], out);
    out[end] = b'\n';
    end + 1
}
