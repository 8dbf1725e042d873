// Windows of w + 1 bits: u and k of what a window is worth, looked up in one table of all windows of all widths, or worked out.
#![tactic(auto)]

pub mod opening;

ghost use Rattle.std.specs.Prelude.{◌≡◌, ◌≢◌, ◌+◌, ◌%◌, ◌^◌, ◌≤◌, ◌<◌, pos, ◌-ℤ◌};
ghost use Rattle.meaning.specs.Windows.{leading, second, window_worth, twos, odd_part, entry_unit, entry_twos};
ghost use Rattle.windows.specs.Parts.{Parts};

use table::Window;
use width::{Bits, Width};

// Window s looked up: u and k are 0 where its two leading bits are equal.
pub fn look_up(w: Width, s: u32) -> Window
    requires { s < 2 ^ (w.bits + 1) }
    ensures { Parts w.bits (entry_unit w.bits s) (entry_twos w.bits s) result }
{
    table::read(w.table_start() + s as usize)
}

// The difference of two sizes, as a digit.
pub fn difference(a: u32, b: u32) -> i8
    requires { (a < b + 128) × (b < a + 128) }
    ensures { result ≡ pos a -ℤ pos b }
{
    a.wrapping_sub(b).cast_signed() as i8
}

// Window s, whose two leading bits are different, worked out without a branch: what it is worth less `less`, which is 0, or 1 at an odd window. With 0 it is the entry of s.
pub fn work_out(w: Bits, s: u32, less: u32) -> Window
    requires s_bound { s < 2 ^ (w.bits + 1) }
    requires s_nonzero { leading w.bits s ≢ second w.bits s }
    requires less_bound { less ≤ s % 2 }
    ensures { Parts w.bits (odd_part w.bits (window_worth w.bits s -ℤ pos less)) (twos w.bits (window_worth w.bits s -ℤ pos less)) result }
{
    let full = 1u32 << w.bits;
    let half = (s + 1) / 2 - less;
    let k = half.trailing_zeros();
    Window {
        unit: difference(half >> k, (s - s % full) >> k),
        twos: k as u8,
    }
}
