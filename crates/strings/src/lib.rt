// The trial's calls on scalars and strings: each reads its input from a frame, makes the call on lent memory and prints every field and buffer.
#![tactic(auto)]

pub mod bounding;
pub mod checking;
pub mod choosing;
pub mod framing;
pub mod parsing;
pub mod reading;
pub mod recoding;
pub mod searching;
pub mod weighing;
