// Standard input read to its end in blocks, for a program that takes one after the other. Where a read or a write fails, that is told and the program ends.
#![tactic(auto)]

ghost use Rattle.std.specs.Prelude.{ℕ, List, ◌≡◌, true, ◌+◌, ◌<◌, ◌≤◌, length, take, IfOk};
ghost use Rattle.blocks.specs.Blocks.{block, Handed};

use std::io;
use std::io::Read;

// The most characters that are read at once.
pub const BLOCK: usize = 65536;

// Where a program reads and writes.
#[derive(Clone, Copy)]
pub enum Stream {
    Input,
    Output,
    Error,
}

// A read or a write that failed, and where.
#[derive(Drop)]
pub struct Fault {
    pub stream: Stream,
    pub error: io::Error,
}

// A program that takes its input block by block.
pub trait Taker {
    // The most blocks that it takes, what holds when so many are taken, what taking one does, and what taking the end does.
    ghost most: { ℕ };

    ghost ready: { ℕ → Self → Type 0 };

    ghost takes: { Self → List ℕ → Self → Type 0 };

    ghost ends: { Self → Self → Type 0 };

    // Takes a block.
    fn pour(&mut self, rt: &HostRuntime, piece: &[u8]) -> Result<(), Fault>
        requires able { (n : ℕ) × (n < most) × ready n self.old }
        requires piece_bound { length piece.now ≤ block }
        ensures taken { IfOk result (λ _. takes self.old piece.now self.new) }
        ensures again { IfOk result (λ _. (n : ℕ) → n < most → ready n self.old → ready (n + 1) self.new) };

    // Takes the end of the input.
    fn end(&mut self, rt: &HostRuntime) -> Result<(), Fault>
        requires { (n : ℕ) × ready n self.old }
        ensures { IfOk result (λ _. ends self.old self.new) };
}

// A fault is told on standard error, if that can still be written, under the program's name and in one line.
fn tell(rt: &HostRuntime, program: &str, fault: Fault) {
    let Fault { stream, error } = fault;
    let _ = match stream {
        Stream::Input => eprintln!(rt; "{program}: standard input: {error}"),
        Stream::Output => eprintln!(rt; "{program}: standard output: {error}"),
        Stream::Error => eprintln!(rt; "{program}: standard error: {error}"),
    };
}

// Hands over what a read gave: the block that was read, or where nothing was read the end of the input. Gives whether there is more to read. A read that fails is no
// end of the input: the taker is not asked for anything, and a line that has not ended is then no line.
fn hand<T: Taker>(
    rt: &HostRuntime,
    got: io::Result<usize>,
    input: &[u8],
    taker: &mut T,
) -> Result<bool, Fault>
    requires got_bound { IfOk got (λ count. count ≤ length input.now) }
    requires input_bound { length input.now ≤ block }
    requires able { (n : ℕ) × (n < T.most) × T.ready n taker.old }
    ensures handed { Handed T.takes T.ends got input.now taker.old result taker.new }
    ensures again { IfOk result (λ more. more ≡ true → (n : ℕ) → n < T.most → T.ready n taker.old → T.ready (n + 1) taker.new) }
{
    match got {
        Ok(0) => {
            taker.end(rt)?;
            Ok(false)
        }
        Ok(count) => {
            taker.pour(rt, &input[..count])?;
            Ok(true)
        }
        Err(error) => Err(Fault {
            stream: Stream::Input,
            error,
        }),
    }
}

// Reads once, and hands over what was read. Gives whether there is more to read: what the taker took is then the front of what was read.
fn turn<T: Taker>(rt: &HostRuntime, input: &mut [u8], taker: &mut T) -> Result<bool, Fault>
    requires input_bound { length input.old ≤ block }
    requires able { (n : ℕ) × (n < T.most) × T.ready n taker.old }
    ensures took { IfOk result (λ more. more ≡ true → (n : ℕ) × (n ≤ length input.new) × T.takes taker.old (take n input.new) taker.new) }
    ensures again { IfOk result (λ more. more ≡ true → (n : ℕ) → n < T.most → T.ready n taker.old → T.ready (n + 1) taker.new) }
{
    let got = rt.stdin().read(input);
    hand(rt, got, input, taker)
}

// Reads to the end of the input. A proved loop has to end, and nothing says that the input does: the blocks are counted.
fn read<T: Taker>(rt: &HostRuntime, most: u64, taker: &mut T) -> Result<(), Fault>
    requires { (most ≤ T.most) × T.ready 0 taker.old }
{
    let mut input = [0u8; BLOCK];
    for _ in 0..most {
        if !turn(rt, &mut input, taker)? {
            return Ok(());
        }
    }
    Ok(())
}

// The whole of a program.
pub fn run<T: Taker>(rt: &HostRuntime, program: &str, most: u64, taker: &mut T)
    requires { (most ≤ T.most) × T.ready 0 taker.old }
{
    if let Err(fault) = read(rt, most, taker) {
        tell(rt, program, fault);
    }
}
