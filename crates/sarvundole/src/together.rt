// The calls for C on two scalars together, as functions of the library.
ghost use Rattle.meaning.specs.Scalars.{order_of};
ghost use Rattle.meaning.specs.Joining.{Joint};
ghost use Rattle.meaning.specs.JointRunning.{RunJoint};
ghost use Rattle.joint.specs.Answers.{joined};
ghost use Rattle.sarvundole.specs.Runs.{ran};

use crate::exported::Ran;
use joint::Joined;

pub fn sarvundole_joint(
    order: u8,
    a: &[u8],
    b: &[u8],
    first: &mut [i8],
    second: &mut [i8],
    words: &mut [u16],
) -> Joined
    ensures { Joint (order_of order) a.now b.now (record { first = first.old; second = second.old; words = words.old }) (joined result) (record { first = first.new; second = second.new; words = words.new }) }
{
    joint::joint(order.into(), a, b, first, second, words).into()
}

pub fn sarvundole_run_joint(
    tape: &[u16],
    modulus: u32,
    first: u32,
    second: u32,
    entries: &mut [u32],
) -> Ran
    ensures { RunJoint tape.now modulus first second entries.old (ran result) entries.new }
{
    joined::run_joint(tape, modulus, first, second, entries).into()
}
