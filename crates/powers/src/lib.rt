// The run of a tape over powers modulo m: its words are judged, the claimed inverse tested, the odd powers of both stored, then the steps done. A double squares, an addition
// multiplies by a power of the base, a subtraction by one of the inverse.
#![tactic(auto)]

ghost use Rattle.std.specs.Prelude.{◌≡◌, ◌++◌, ◌*◌, ◌%◌, ◌≤◌, ◌<◌, length, drop};
ghost use Rattle.meaning.specs.Multiples.{cost_of};
ghost use Rattle.meaning.specs.Powering.{powers_of};
ghost use Rattle.walk.specs.Powers.{products};
ghost use Rattle.powers.specs.Outcomes.{Promise};
ghost use Rattle.powers.specs.Walks.{lent, HasPowers};

use refusals::{Reason, Refusal};
use run::{Chip, Cost, Ran};
use tape::{Move, Sign};
use width::DigitSet;

// ---- powers
// The residue of a product: no product of two 32-bit numbers leaves 64 bits.
fn times(x: u32, y: u32, modulus: u32) -> u32
    requires { 0 < modulus }
    ensures { result ≡ x * y % modulus }
{
    (u64::from(x) * u64::from(y) % u64::from(modulus)) as u32
}

// Stores so many odd powers of the base, as `run::store` does multiples. One function for both would need a trait of a carrier's sum, with laws of how each entry
// comes from the one before: for a loop of two lines that is no plainer.
fn store(count: usize, modulus: u32, base: u32, powers: &mut [u32])
    requires modulus_nonzero { 0 < modulus }
    requires count_in_bounds { count ≤ length powers.old }
    ensures { powers.new ≡ powers_of count modulus base ++ drop count powers.old }
{
    let mut power = base % modulus;
    let square = times(power, power, modulus);
    for stored in &mut powers[..count] {
        *stored = power;
        power = times(power, square, modulus);
    }
}

// What both sets of odd powers cost: twice the multiples of a run over residues.
fn twice(count: usize) -> Cost
    requires { count ≤ 64 }
    ensures { (result.doublings ≡ 2 * (cost_of count).doublings) × (result.additions ≡ 2 * (cost_of count).additions) }
{
    let once = run::cost_of(count);
    Cost {
        doublings: 2 * once.doublings,
        additions: 2 * once.additions,
    }
}

// ---- the chip
// Powers, over two lent buffers: a move multiplies by a power of the base, or by one of the inverse.
#[derive(Clone, Copy)]
struct Powers<'a> {
    modulus: u32,
    powers: &'a [u32],
    inverses: &'a [u32],
    ghost some: { 0 < modulus },
}

impl Chip for Powers<'_> {
    ghost carrier = { λ c. products c.modulus };

    ghost table = { λ c. lent c.powers.now c.inverses.now };

    ghost Value = { λ c x. Unit {0} };

    ghost Entry = { λ c e. HasPowers c.powers.now c.inverses.now e };

    fn start(&self) -> u32 {
        1 % self.modulus
    }

    fn double(&self, value: u32) -> u32 {
        times(value, value, self.modulus)
    }

    fn load(&self, step: Move) -> u32 {
        let entry = usize::from(step.entry);
        match step.sign {
            Sign::Plus => self.powers[entry],
            Sign::Minus => self.inverses[entry],
        }
    }

    fn add(&self, value: u32, step: Move) -> u32 {
        times(value, self.load(step), self.modulus)
    }
}

// ---- the call
// The run of a tape over powers: all its words are judged, and the inverse is tested, before a power is stored.
pub fn run_powers(
    set: DigitSet,
    tape: &[u16],
    modulus: u32,
    base: u32,
    inverse: u32,
    powers: &mut [u32],
    inverses: &mut [u32],
) -> Result<Ran, Refusal>
    ensures { Promise set.width set.largest tape.now modulus base inverse powers.old inverses.old result powers.new inverses.new }
{
    let count = set.tried()?.entries();
    run::judged(count, tape, modulus, powers.len().min(inverses.len()))?;
    if times(base, inverse, modulus) != 1 % modulus {
        return Err(Reason::NoInverse.into());
    }
    store(count, modulus, base, powers);
    store(count, modulus, inverse, inverses);
    let chip = Powers {
        modulus,
        powers,
        inverses,
    };
    let state = run::reach(&chip, tape);
    Ok(Ran {
        residue: state.value,
        doublings: state.doublings,
        additions: state.additions,
        cost: twice(count),
    })
}
