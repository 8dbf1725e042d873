// Frames of both versions: a digit string written to a lent line, and a line read to lent digits. Nothing of recoding is known here.
#![tactic(auto)]

ghost use Rattle.std.specs.Prelude.{◌≡◌};
ghost use Rattle.frames.specs.Told.{framed, parsed, wrote, said};

use refusals::Reason;

mod entries;
mod fields;
mod kinds;
mod reading;
mod writing;

pub use reading::{Reading, read};
pub use writing::{MOST_PLAIN, MOST_SPARSE, fill, line_length, write};

// Version 1 has every digit, version 2 the nonzero ones with their places.
#[derive(Clone, Copy)]
pub enum Version {
    Plain,
    Sparse,
}

// What writing answers to C: 0, or the number of a refusal; and on acceptance the line's length in characters.
#[repr(C)]
#[derive(Clone, Copy)]
pub struct Framed {
    pub refusal: u8,
    pub length: u16,
}

impl From<Result<u16, Reason>> for Framed {
    ghost from_gives = { λ answer c. framed c ≡ wrote answer };

    fn from(answer: Result<u16, Reason>) -> Framed {
        match answer {
            Ok(length) => Framed { refusal: 0, length },
            Err(reason) => Framed {
                refusal: reason.into(),
                length: 0,
            },
        }
    }
}

// What reading answers to C: 0, or the number of a refusal; on acceptance the number that a refused line gives, or 0 and the weight, the top and the places of a string.
#[repr(C)]
#[derive(Clone, Copy)]
pub struct Parsed {
    pub refusal: u8,
    pub stated: u8,
    pub weight: u16,
    pub top: u16,
    pub places: u16,
}

impl From<Result<Reading, Reason>> for Parsed {
    ghost from_gives = { λ answer c. parsed c ≡ said answer };

    fn from(answer: Result<Reading, Reason>) -> Parsed {
        let none = Parsed {
            refusal: 0,
            stated: 0,
            weight: 0,
            top: 0,
            places: 0,
        };
        match answer {
            Ok(Reading::Stated(stated)) => Parsed { stated, ..none },
            Ok(
                Reading::String {
                    weight,
                    top,
                    places,
                },
            ) => Parsed {
                weight,
                top,
                places,
                ..none
            },
            Err(reason) => Parsed {
                refusal: reason.into(),
                ..none
            },
        }
    }
}
