// The window that opens over so many places of a scalar, and where its digit stands.
ghost use Rattle.std.specs.Prelude.{◌+◌, ◌≤◌, ◌<◌};
ghost use Rattle.laws.specs.Deciding.{Decides};
ghost use Rattle.meaning.specs.Digits.{most_places};
ghost use Rattle.windows.specs.Openings.{Opens, Placed};

use table::Window;
use width::Bits;

// A window's digit and its place, and how many places are left under the window.
#[derive(Clone, Copy)]
pub struct Place {
    pub spot: usize,
    pub unit: i8,
    pub left: usize,
}

// Whether window s opens: whether its two leading bits are different.
pub fn opens(w: Bits, s: u32) -> bool
    ensures { Decides result (Opens w.bits s) }
{
    s >> w.bits != (s >> (w.bits - 1)) % 2
}

// Where the digit of a window over `left` places stands.
pub fn placed(w: Bits, window: Window, left: usize) -> Place
    requires { (left ≤ most_places) × (window.twos < w.bits) × (w.bits ≤ left + window.twos) }
    ensures { Placed w.bits window left result }
{
    let span = w.bits as usize;
    Place {
        spot: left + (window.twos as usize) - span,
        unit: window.unit,
        left: left.saturating_sub(span),
    }
}
