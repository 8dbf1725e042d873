// The calls for C on two scalars together.
ghost use Rattle.meaning.specs.Scalars.{order_of};
ghost use Rattle.meaning.specs.Joining.{Joint};
ghost use Rattle.meaning.specs.JointRunning.{RunJoint};
ghost use Rattle.joint.specs.Answers.{joined};
ghost use Rattle.sarvundole.specs.Runs.{ran};

use sarvundole::Joined;
use sarvundole::exported::Ran;

#[unsafe(no_mangle)]
pub extern "C" fn sarvundole_joint(
    order: u8,
    a: &[u8],
    b: &[u8],
    first: &mut [i8],
    second: &mut [i8],
    words: &mut [u16],
) -> Joined
    ensures { Joint (order_of order) a.now b.now (record { first = first.old; second = second.old; words = words.old }) (joined result) (record { first = first.new; second = second.new; words = words.new }) }
{
    sarvundole::together::sarvundole_joint(order, a, b, first, second, words)
}

#[unsafe(no_mangle)]
pub extern "C" fn sarvundole_run_joint(
    tape: &[u16],
    modulus: u32,
    first: u32,
    second: u32,
    entries: &mut [u32],
) -> Ran
    ensures { RunJoint tape.now modulus first second entries.old (ran result) entries.new }
{
    sarvundole::together::sarvundole_run_joint(tape, modulus, first, second, entries)
}
