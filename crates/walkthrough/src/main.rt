// From a check number to its digits, its tape and a residue, each step printed: 349 at width 4. examples/check_number.c prints the same.
#![tactic(auto)]

use sarvundole::{DigitSet, Move, Order, Refusal, Sign, Step};
use std::{fmt, io};

const WIDTH: u8 = 4;

const MODULUS: u32 = 1000;

const BASE: u32 = 7;

// Why the walk stops before its end: a step refuses its input, or what it prints does not go out.
#[derive(Drop)]
enum Stop {
    Refused(Refusal),
    Unwritten(io::Error),
}

impl From<Refusal> for Stop {
    fn from(refusal: Refusal) -> Stop {
        Stop::Refused(refusal)
    }
}

impl From<io::Error> for Stop {
    fn from(fault: io::Error) -> Stop {
        Stop::Unwritten(fault)
    }
}

// Which multiple an entry is.
fn multiple(entry: u16) -> u32 {
    2 * u32::from(entry) + 1
}

// A word of the tape, as it is printed.
#[derive(Drop)]
struct Line(Step);

impl fmt::Display for Line {
    fn fmt<W: fmt::Write>(&self, f: &mut fmt::Formatter<W>) -> fmt::Result {
        match self.0 {
            Step::Double => f.write_str("double"),
            Step::Load(
                Move {
                    entry,
                    sign: Sign::Plus,
                },
            ) => write!(f, "load {}", multiple(entry)),
            Step::Load(
                Move {
                    entry,
                    sign: Sign::Minus,
                },
            ) => write!(f, "load minus {}", multiple(entry)),
            Step::Add(
                Move {
                    entry,
                    sign: Sign::Plus,
                },
            ) => write!(f, "add {}", multiple(entry)),
            Step::Add(
                Move {
                    entry,
                    sign: Sign::Minus,
                },
            ) => write!(f, "subtract {}", multiple(entry)),
            Step::Bad => f.write_str("bad"),
        }
    }
}

// The steps. 17 places hold the 16 bits of the number, and 33 words every tape of so many places.
fn walk(rt: &HostRuntime) -> Result<(), Stop> {
    let set = DigitSet::whole(WIDTH);
    let scalar = [0x01u8, 0x5D];
    let mut digits = [0i8; 17];
    let mut marks = [0u64; 9];
    let recoded = sarvundole::recode(
        sarvundole::WNAF,
        set,
        Order::HighestFirst,
        &scalar,
        &mut digits,
        &mut marks,
    )?;
    print!(rt; "digits, highest place first:")?;
    for digit in digits.iter().take(usize::from(recoded.top)).rev() {
        print!(rt; " {digit}")?;
    }
    println!(rt; "\nweight {}, top {}", recoded.weight, recoded.top)?;

    sarvundole::check_nonadjacent(set, Order::HighestFirst, &scalar, &digits)?;
    println!(rt; "checked: worth the number, and nonzero digits at least {WIDTH} places apart")?;

    let mut words = [0u16; 33];
    let taped = sarvundole::tape(set, &digits, &mut words)?;
    let tape = &words[..usize::from(taped.words)];
    println!(rt; "tape of {} words:", tape.len())?;
    for word in tape {
        println!(rt; "  {}", Line(sarvundole::decode(*word)))?;
    }

    let mut multiples = [0u32; 4];
    let ran = sarvundole::run(set, tape, MODULUS, BASE, &mut multiples)?;
    println!(rt;
        "doublings {}, additions {}; of the multiples: doublings {}, additions {}",
        ran.doublings, ran.additions, ran.cost.doublings, ran.cost.additions
    )?;
    println!(rt;
        "residue {} of the number times {BASE} modulo {MODULUS}",
        ran.residue
    )?;
    Ok(())
}

fn main(rt: HostRuntime) {
    let told = match walk(&rt) {
        Ok(()) => Ok(()),
        Err(Stop::Refused(refusal)) => println!(&rt;
            "refused with {} at place {}",
            refusal.reason as u8, refusal.place
        ),
        Err(Stop::Unwritten(fault)) => eprintln!(&rt; "walkthrough: standard output: {fault}"),
    };
    // A fault of this last line has nobody to be told to.
    let _ = told;
}
