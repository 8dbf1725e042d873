// Reads the frames that `recode` reads, and answers each in version 2.
#![tactic(auto)]

use frames::Version;

fn main(rt: HostRuntime) {
    pipe::program(&rt, Version::Sparse);
}
