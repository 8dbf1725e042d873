// The scalars that a pass reads.
ghost use Rattle.std.specs.Prelude.{◌≡◌, ◌≤◌, length};
ghost use Rattle.meaning.specs.Scalars.{most_bytes};

use scalar::Order;

// Two scalars that have equally many bytes, in one order.
#[derive(Clone, Copy)]
pub struct Scalars<'a> {
    pub order: Order,
    pub a: &'a [u8],
    pub b: &'a [u8],
    ghost short: { length a.now ≤ most_bytes },
    ghost equal: { length b.now ≡ length a.now },
}
