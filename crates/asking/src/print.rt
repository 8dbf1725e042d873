// An answer is printed to the front of lent memory, each byte as two hexadecimal characters.
ghost use Rattle.std.specs.Prelude.{◌≡◌, ℕ, ◌*◌, length};
ghost use Rattle.asking.specs.Printing.{Room, Wrote};

use crate::lent;

// The longest answer, its line feed counted: that of two scalars together, where all the places and words that the program has are lent.
pub const MOST: usize = 2 * (13 + 2 * lent::PLACES + 2 * lent::WORDS) + 1;

// The memory, and where the next character goes.
#[derive(Drop)]
pub struct Printer<'a> {
    out: &'a mut [u8],
    end: usize,
}

impl<'a> Printer<'a> {
    pub fn over(out: &'a mut [u8]) -> Printer<'a>
        ensures same_memory { result.out.ghost_name ≡ out.entry.ghost_name }
        ensures at_front { result.end ≡ 0 }
        ensures all_room { length result.out.now ≡ length out.old }
    {
        Printer { out, end: 0 }
    }

    // How many characters are written.
    pub fn end(&self) -> usize
        ensures { result ≡ self.now.end }
    {
        self.end
    }

    fn byte(&mut self, byte: u8)
        requires { Room self.old 2 }
        ensures { Wrote self.old self.new 2 }
    {
        self.out[self.end] = hexadecimal::capital(byte / 16);
        self.out[self.end + 1] = hexadecimal::capital(byte % 16);
        self.end += 2;
    }

    fn bytes<const N: usize>(&mut self, bytes: [u8; N])
        requires { Room self.old (2 * N) }
        ensures { Wrote self.old self.new (2 * N) }
    {
        for byte in bytes {
            self.byte(byte);
        }
    }

    pub fn number<T: Number>(&mut self, number: T)
        requires { Room self.old (2 * T.size) }
        ensures { Wrote self.old self.new (2 * T.size) }
    {
        number.print(self);
    }

    pub fn numbers<T: Number>(&mut self, numbers: &[T])
        requires { Room self.old (2 * T.size * length numbers.now) }
        ensures { Wrote self.old self.new (2 * T.size * length numbers.now) }
    {
        // A printer of its own has its place at hand: that of one that is lent on is fetched and put back for each byte.
        let mut here = Printer {
            out: &mut *self.out,
            end: self.end,
        };
        for number in numbers {
            here.number(*number);
        }
        self.end = here.end;
    }
}

// A number is printed as all the bytes of its type, the high one first.
pub trait Number: Copy {
    ghost size: { ℕ };

    fn print(self, printer: &mut Printer)
        requires { Room printer.old (2 * size) }
        ensures { Wrote printer.old printer.new (2 * size) };
}

impl Number for u8 {
    ghost size = { 1 };

    fn print(self, printer: &mut Printer) {
        printer.byte(self);
    }
}

impl Number for u16 {
    ghost size = { 2 };

    fn print(self, printer: &mut Printer) {
        printer.bytes(self.to_be_bytes());
    }
}

impl Number for u32 {
    ghost size = { 4 };

    fn print(self, printer: &mut Printer) {
        printer.bytes(self.to_be_bytes());
    }
}

impl Number for u64 {
    ghost size = { 8 };

    fn print(self, printer: &mut Printer) {
        printer.bytes(self.to_be_bytes());
    }
}

// A digit, in two's complement.
impl Number for i8 {
    ghost size = { 1 };

    fn print(self, printer: &mut Printer) {
        printer.byte(self.cast_unsigned());
    }
}
