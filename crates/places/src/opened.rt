// The places of a stretch of the scalar where a window opens: those whose bit differs from the one under it.
ghost use Rattle.std.specs.Prelude.{◌≡◌, ◌+◌, ◌%◌, ◌^◌, ◌<◌, ◌≤◌};
ghost use Rattle.places.specs.Openings.{Highest, openings};

// Those among the first `count` places of stretch x, told `tail` places higher up: so many places a window has under its first.
pub fn places(tail: usize, x: u64, count: usize) -> u64
    requires { count + tail ≤ 56 }
    ensures { result ≡ openings tail x count }
{
    (((x ^ (x >> 1)) >> tail) << tail) % (1u64 << (count + tail))
}

// The highest of them.
pub fn highest(tail: usize, opens: u64) -> u32
    requires { 2 ^ tail ≤ opens }
    ensures { Highest tail opens result }
{
    63 - u64::leading_zeros(opens) - tail as u32
}

// Those that are left under a window that opens at place `at`.
pub fn below(opens: u64, at: u32) -> u64
    requires { at < 64 }
    ensures { result ≡ opens % 2 ^ at }
{
    opens % (1u64 << at)
}

// The same where a window is one place: the highest alone goes. Taken off it is not waited for as long as a mask.
pub fn others(opens: u64, at: u32) -> u64
    requires { Highest 0 opens at }
    ensures { result ≡ opens % 2 ^ at }
{
    opens - (1u64 << at)
}
