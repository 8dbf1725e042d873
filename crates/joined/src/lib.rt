// The joint run of a tape over residues modulo m: its words are judged, g, h, g + h and g - h stored, then the steps done.
#![tactic(auto)]

ghost use Rattle.std.specs.Prelude.{◌≡◌, ◌++◌, ◌≤◌, ◌<◌, length, drop};
ghost use Rattle.meaning.specs.JointRunning.{joint_count, joint_entries_of};
ghost use Rattle.joined.specs.Promises.{Promise};

use refusals::Refusal;
use run::{Cost, Ran, Residues};

// How many entries it has.
const COUNT: usize = 4;

// Stores the entries: g, h, their sum and their difference.
fn store(modulus: u32, first: u32, second: u32, entries: &mut [u32])
    requires modulus_nonzero { 0 < modulus }
    requires joint_count_in_bounds { joint_count ≤ length entries.old }
    ensures { entries.new ≡ joint_entries_of modulus first second ++ drop joint_count entries.old }
{
    let g = first % modulus;
    let h = second % modulus;
    entries[..COUNT].copy_from_slice(&[
        g,
        h,
        run::plus(g, h, modulus),
        run::plus(g, modulus - h, modulus),
    ]);
}

// The joint run of a tape: all its words are judged before an entry is stored.
pub fn run_joint(
    tape: &[u16],
    modulus: u32,
    first: u32,
    second: u32,
    entries: &mut [u32],
) -> Result<Ran, Refusal>
    ensures { Promise tape.now modulus first second entries.old result entries.new }
{
    run::judged(COUNT, tape, modulus, entries.len())?;
    store(modulus, first, second, entries);
    let chip = Residues {
        modulus,
        multiples: entries,
    };
    let state = run::reach(&chip, tape);
    Ok(Ran {
        residue: state.value,
        doublings: state.doublings,
        additions: state.additions,
        cost: Cost {
            doublings: 0,
            additions: 2,
        },
    })
}
