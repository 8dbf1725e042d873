// The trial program: makes every public call from a line of hexadecimal, and answers with every field and every lent buffer whole.
#![tactic(auto)]

mod answers;
mod input;

fn main(rt: HostRuntime) {
    input::run(&rt);
}
