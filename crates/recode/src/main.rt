// Reads frames from standard input, a line each, and answers each in version 1 on standard output.
#![tactic(auto)]

use frames::Version;

fn main(rt: HostRuntime) {
    pipe::program(&rt, Version::Plain);
}
