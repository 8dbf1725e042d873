// The trial's calls on tapes, in the same way: those that make one, those that run one, and the translation.
#![tactic(auto)]

pub mod joining;
pub mod jointly;
pub mod powering;
pub mod running;
pub mod taping;
pub mod translating;
