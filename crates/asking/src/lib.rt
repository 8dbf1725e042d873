// What a line of the trial asks for, the memory that is lent to its call, and how an answer is printed.
#![tactic(auto)]

pub mod asked;
pub mod lent;
pub mod print;
