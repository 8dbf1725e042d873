// The library that a user names: every call and every type of this house under one name, and the calls that `sarvundole_c` exports to C in `exported`, `together` and `chips`.
#![tactic(auto)]

pub mod chips;
pub mod exported;
pub mod together;

pub use choice::{Choice, Chosen, choose};
pub use digits::{Accepted, Tally};
pub use frames::{Framed, Parsed, Reading as Line, Version, read, write};
pub use joined::run_joint;
pub use joint::{Joined, Planned, joint};
pub use judge::{check, check_nonadjacent};
pub use lighter::{Part, Picked, Which, lighter, lighter_refusal, pick};
pub use powers::run_powers;
pub use reader::{Reader, Reading, State, Taken, call, moved, read_at, start};
pub use recoder::{CLOSEST, CLOSEST_SMALLER, Form, MOF, WMOF, WNAF, recode, recode_below};
pub use refusals::{Reason, Refusal};
pub use run::{Cost, Ran, run};
pub use scalar::{MOST_BYTES, Order};
pub use search::{Searched, search};
pub use second::{Translated, run_second, translate};
pub use tape::{Move, Sign, Step, Taped, Written, decode, tape};
pub use width::{Bits, DigitSet, Width};
