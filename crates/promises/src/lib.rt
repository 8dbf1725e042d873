// What the calls promise, as theorems about their contracts alone: see proofs/. There is no code here.
#![tactic(auto)]
