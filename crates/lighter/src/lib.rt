// The lighter of two strings that were made for one scalar: both are checked, and a part of one of them is handed back, cut above its highest nonzero place. Nothing is copied.
#![tactic(auto)]

ghost use Rattle.std.specs.Prelude.{◌≡◌};
ghost use Rattle.meaning.specs.Lighter.{Pick, Lighter, LighterRefusal};
ghost use Rattle.scalar.specs.Orders.{ordered};
ghost use Rattle.lighter.specs.Answers.{answered, Answers};

use refusals::Reason;
use scalar::Order;
use width::DigitSet;

// Which of the two strings.
#[derive(Clone, Copy)]
pub enum Which {
    First = 0,
    Second = 1,
}

// Which string is the lighter, and how many of its places are handed back.
#[derive(Clone, Copy)]
pub struct Part {
    pub which: Which,
    pub places: u16,
}

// The same for C: the string is 0 for the first and 1 for the second, and a refusal hands back no place of the first.
#[repr(C)]
#[derive(Clone, Copy)]
pub struct Picked {
    pub refusal: u8,
    pub which: u8,
    pub places: u16,
}

impl From<Result<Part, Reason>> for Picked {
    ghost from_gives = { Answers };

    fn from(answer: Result<Part, Reason>) -> Picked {
        match answer {
            Ok(part) => Picked {
                refusal: 0,
                which: part.which as u8,
                places: part.places,
            },
            Err(reason) => Picked {
                refusal: reason.into(),
                which: 0,
                places: 0,
            },
        }
    }
}

// On a tie the first is taken.
pub fn pick(
    width: u8,
    order: Order,
    scalar: &[u8],
    first: &[i8],
    second: &[i8],
) -> Result<Part, Reason>
    ensures { Pick width (ordered order) scalar.now first.now second.now (answered result) }
{
    let set = DigitSet::whole(width);
    let one = judge::check(set, order, scalar, first)?;
    let other = judge::check(set, order, scalar, second)?;
    if one.weight <= other.weight {
        return Ok(Part {
            which: Which::First,
            places: one.top,
        });
    }
    Ok(Part {
        which: Which::Second,
        places: other.top,
    })
}

// The part itself. A refusal gives an empty part of the first string.
pub fn lighter<'a>(
    width: u8,
    order: Order,
    scalar: &[u8],
    first: &'a [i8],
    second: &'a [i8],
) -> &'a [i8]
    ensures { Lighter width (ordered order) scalar.now first.now second.now result.now }
{
    match pick(width, order, scalar, first, second) {
        Ok(part) => {
            let places = usize::from(part.places);
            match part.which {
                Which::First => &first[..places],
                Which::Second => &second[..places],
            }
        }
        Err(_) => &first[..0],
    }
}

// The number of that refusal, 0 if there is none: for a caller that has the part by `lighter` and asks why it is empty.
pub fn lighter_refusal(width: u8, order: Order, scalar: &[u8], first: &[i8], second: &[i8]) -> u8
    ensures { LighterRefusal width (ordered order) scalar.now first.now second.now result }
{
    match pick(width, order, scalar, first, second) {
        Ok(_) => 0,
        Err(reason) => reason.into(),
    }
}
